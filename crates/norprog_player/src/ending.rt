//! How a script ends on a device.

use nor_base::Wrong;
use nor_check::Why;
use nor_reader::Mismatch;
use nor_serprog::Fault;
use norprog_device::Failure;

/// How a script ends on a device.
#[derive(Clone, Copy, PartialEq, Eq, Drop)]
pub enum Ending {
    /// The device did each step, and gave the bytes that the chip in memory gives.
    Done {
        /// How many steps there are: each is one transaction.
        transactions: u64,
        /// The chip isn't trusted and its content is FFh alone, so what was compared says nothing
        /// of which chip it is.
        blank: bool,
    },
    /// The chip in memory goes wrong: the device was asked for nothing.
    Wrong {
        /// The step, counted from 0; the number of steps where it goes wrong at the end.
        step: u64,
        /// How it goes wrong.
        why: Wrong,
    },
    /// On some chip of the meaning and start the steps don't do what they did on the chip in
    /// memory, and on none do they go wrong earlier: the device was asked for nothing.
    No {
        /// The step, counted from 0; the number of steps where it goes wrong at the end.
        step: u64,
        /// How it goes wrong there.
        why: Why,
    },
    /// The chip behind the device isn't known to be the one that is expected, idle and unprotected:
    /// no step was asked for.
    Unlike {
        /// Why.
        why: Unlike,
    },
    /// The device didn't do this step.
    Failed {
        /// The step, counted from 0; the number of steps where the chip isn't known to hold what
        /// they leave.
        step: u64,
        /// Why: at `Carried` the device was asked for nothing.
        why: Failure,
    },
}

/// Why a chip isn't known to be the one that is expected.
#[derive(Clone, Copy, PartialEq, Eq, Drop)]
pub enum Unlike {
    /// It stays busy.
    Busy,
    /// An exchange ended early in which it was asked for its status or its address register.
    Asking(Fault),
    /// Its status, S7 to S0, shows that it can't take the steps.
    Status(u32),
    /// The three status registers of a W25Q256JV do, S23 to S0.
    Registers(u32),
    /// Its SFDP bytes are others, or their reading stopped.
    Tables(Mismatch),
    /// Its address register has this value: some address bit is set.
    Moved(u8),
    /// A byte that it holds is another, or the reading of these stopped.
    Content(Mismatch),
}
