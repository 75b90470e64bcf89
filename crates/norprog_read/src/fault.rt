//! Why a chip isn't read.

ghost use Rattle.std.specs.Prelude.{◌≡◌};
ghost use Rattle.nor_job.specs.declared.fault.BuildFault.TheVariants.{Memory};
ghost use Rattle.norprog_common.specs.declared.faults.Refusal.TheVariants.{Build};
ghost use Rattle.norprog_read.specs.declared.fault.Unread.TheVariants as unread;

use nor_reader::Difference;
use nor_serprog::Fault;
use nor_sfdp::SfdpFault;
use norprog_common::Refusal;
use norprog_device::DeviceFault;
use std::alloc::AllocError;

/// Why a chip isn't read.
#[derive(Drop)]
pub enum Unread {
    /// As other commands are refused.
    Refused(Refusal),
    /// The device can't be used.
    Device(DeviceFault),
    /// The chip didn't say or give what it has to.
    Unlike(Unlike),
}

/// What the chip didn't say or give.
#[derive(Clone, Copy, Drop)]
pub enum Unlike {
    /// Each status said busy.
    Busy,
    /// An exchange ended early.
    Asking(Fault),
    /// The status says another address mode: S23 to S0.
    Mode(u32),
    /// The byte of this address came otherwise the second time, or is past its end.
    At(u32),
    /// Its SFDP bytes and those of the file differ.
    Tables(Difference),
    /// It has no SFDP tables that are accepted.
    NoTables {
        /// Its identification (9Fh).
        id: [u8; 3],
        /// Why they aren't.
        fault: SfdpFault,
    },
    /// Its tables say another size than was said: so many bytes.
    Size(u32),
    /// A register of it, which has this value, moves all addresses.
    Moved(u8),
    /// Its identification is that of a line without a chip, isn't the one that is expected, or is
    /// another at the end.
    Id([u8; 3]),
    /// The halves of its content are alike, as far as they were read.
    Repeats,
    /// What came doesn't show that the terminal changed nothing of what was read.
    Line,
    /// It can't be read whole in the mode that was said.
    Unreadable,
    /// What it holds doesn't show that it is in that mode, and nothing else does.
    Hidden,
}

impl From<Refusal> for Unread {
    ghost from_gives = { λ refusal why. why ≡ unread.Refused refusal };

    fn from(refusal: Refusal) -> Unread {
        Unread::Refused(refusal)
    }
}

impl From<AllocError> for Unread {
    ghost from_gives = { λ _ why. why ≡ unread.Refused (Build Memory) };

    fn from(_error: AllocError) -> Unread {
        Unread::Refused(Refusal::MEMORY)
    }
}
