//! What a device that shows a chip promises.

ghost use Rattle.std.specs.Prelude.{◌≡◌, ℕ, length};
ghost use Rattle.nor_base.specs.Sample.{sampled_count};
ghost use Rattle.nor_base.specs.Chip.{is_settled};
ghost use Rattle.nor_base.specs.Port.{Shown, Transacts, CountsTransact};
ghost use Rattle.nor_chip.specs.Asked.{AsksMore};
ghost use Rattle.nor_chip.specs.Waits.{WaitsBusy};

use nor_base::PortFault;

/// A device that shows a chip: a chip in memory, or an adapter with a chip behind it.
pub trait Port {
    /// The chip that it shows, and what is fixed with it.
    ghost shown: { Self → Shown };

    /// How often it has failed.
    ghost count: { Self → ℕ };

    /// That it was asked for so many transactions. A port that keeps no count may let every number
    /// hold.
    ghost asked: { Self → ℕ → Type 0 };

    /// Does one transaction: select, the clocks, deselect. `clocks` are symbols, one byte each.
    ///
    /// Wrong: the instruction was refused for that reason, and the chip is as before. Failed: the
    /// device failed, and nothing is promised of the chip.
    fn transact(&mut self, clocks: &[u8], out: &mut [u8]) -> Result<(), PortFault>
        requires out { length out.old ≡ sampled_count clocks.now }
        ensures effect { Transacts (shown self.old) (shown self.new) result clocks.now out.new }
        ensures count { CountsTransact (count self.old) (count self.new) result }
        ensures asked { AsksMore (asked self.old) (asked self.new) 1 };

    /// Reads the status while the chip says busy, at most `most` times, and returns how often: each
    /// of these reads said busy.
    ///
    /// It may stop before the chip is idle. A device that doesn't say how does none, so that a poll
    /// goes turn by turn; a chip in memory does all at once.
    fn wait_busy(&mut self, most: u64) -> u64
        ensures waited { WaitsBusy (shown self.old) (shown self.new) most result }
        ensures count { count self.new ≡ count self.old }
        ensures asked { AsksMore (asked self.old) (asked self.new) result }
    {
        let _ = most;
        0
    }

    /// Whether the chip is idle, with the latch clear, in its first address mode.
    fn settled(&self) -> bool
        ensures { result ≡ is_settled (shown self.now).setting (shown self.now).chip };

    /// How often it has failed since its count began.
    fn failures(&self) -> u64
        ensures { result ≡ count self.now };
}
