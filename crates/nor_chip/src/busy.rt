//! For how long programs and erases keep a chip busy.

ghost use Rattle.std.specs.Prelude.{◌≡◌, ◌<◌, length, slice_index};
ghost use Rattle.nor_chip.specs.Busy.{times_of};

/// For how many status reads each program and each erase that a chip takes keeps it busy, in their
/// order.
#[derive(Drop)]
pub enum BusyTimes {
    /// For these, and for none past their end.
    Listed(Vec<u32>),
    /// Each of the first 2^64 - 1 for this many. It takes no memory.
    Each(u32),
}

impl BusyTimes {
    /// How many there are.
    pub(crate) fn count(&self) -> usize
        ensures { result ≡ length (times_of self.now) }
    {
        match self {
            BusyTimes::Listed(times) => times.len(),
            BusyTimes::Each(_) => usize::MAX,
        }
    }

    /// The one of this number, counted from 0.
    pub(crate) fn at(&self, number: usize) -> u32
        requires { number < length (times_of self.now) }
        ensures { result ≡ slice_index (times_of self.now) number }
    {
        match self {
            BusyTimes::Listed(times) => times[number],
            BusyTimes::Each(reads) => *reads,
        }
    }
}
