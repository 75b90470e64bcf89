//! How much was written.

ghost use Rattle.std.specs.Prelude.{◌≡◌, ◌<◌, ◌+◌, ◌^◌};
ghost use Rattle.nor_steps.specs.Tally.{nothing_told, sum_of};

/// How much was written.
#[derive(Clone, Copy)]
pub struct Tally {
    /// Steps.
    pub steps: u64,
    /// Erase instructions.
    pub erases: u64,
    /// Bytes erased.
    pub erased: u64,
    /// Program instructions.
    pub programs: u64,
}

impl Tally {
    /// Nothing yet.
    pub fn none() -> Tally
        ensures { result ≡ nothing_told }
    {
        Tally {
            steps: 0,
            erases: 0,
            erased: 0,
            programs: 0,
        }
    }

    /// Both together; no sum is 2^64 or more.
    pub fn plus(self, other: Tally) -> Tally
        requires steps { self.steps + other.steps < 2 ^ 64 }
        requires erases { self.erases + other.erases < 2 ^ 64 }
        requires erased { self.erased + other.erased < 2 ^ 64 }
        requires programs { self.programs + other.programs < 2 ^ 64 }
        ensures { result ≡ sum_of self other }
    {
        Tally {
            steps: self.steps + other.steps,
            erases: self.erases + other.erases,
            erased: self.erased + other.erased,
            programs: self.programs + other.programs,
        }
    }
}
