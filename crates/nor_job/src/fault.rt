//! Why a build is refused.

ghost use Rattle.std.specs.Prelude.{◌≡◌};
ghost use Rattle.nor_job.specs.Lifted.{lifted_hex, lifted_layout};
ghost use Rattle.nor_job.specs.declared.fault.BuildFault.TheVariants.{Memory, Sfdp, Sheet};

use nor_geometry::PlanFault;
use nor_hex::HexFault;
use nor_layout::LayoutFault;
use nor_sfdp::SfdpFault;
use nor_sheet::SheetFault;
use std::alloc::{AllocError, AllocFailed};
use thiserror::Error;

/// Why a build is refused.
///
/// Up to `ContentSize` the first in the order below is reported, and nothing has been read or
/// written then. Of `Plan`, `ContentShort`, `Read` and `Write` the first that the work meets is
/// reported. Out of memory in a lower crate is `Memory`.
#[derive(Clone, Copy, Debug, PartialEq, Eq, Error)]
pub enum BuildFault {
    /// The inputs contradict one another: 1 regions are named without a layout; 2 a status with
    /// part Generic; 3 a status together with `mode4` or `quad`; 4 a chip that isn't said
    /// by its SFDP, of part W25q256jv. The first of these is reported. After `Sheet` 6: no chip of
    /// this meaning has the page that was said.
    #[error("the inputs contradict one another ({0})")]
    Contradiction(u8),
    /// The image is refused.
    #[error(transparent)]
    Hex(HexFault),
    /// The layout, or the choice of its regions, is refused.
    #[error(transparent)]
    Layout(LayoutFault),
    /// The chip's meaning is refused; `Density` for a uniform chip of a size that none has.
    #[error(transparent)]
    Sfdp(SfdpFault),
    /// The chip's sheet is refused.
    #[error(transparent)]
    Sheet(SheetFault),
    /// The status says that the chip isn't idle and unprotected: 1 it is busy (S0); 2 its write
    /// enable latch is set (S1); 3 an erase or program is suspended (S15); 4 something is or may be
    /// protected (any of S2 to S5, S14, S18). The first of these is reported.
    #[error("the status refuses a build ({0})")]
    Status(u8),
    /// Four-byte address mode on a chip with only three address bytes.
    #[error("the chip has no four-byte address mode")]
    ModeImpossible,
    /// The length of the content isn't the chip's size.
    #[error("the content does not have the chip's size")]
    ContentSize,
    /// An address can't be made to hold its target.
    #[error(transparent)]
    Plan(PlanFault),
    /// The reader ended before the content did.
    #[error("the content ended too early")]
    ContentShort,
    /// The reader failed.
    #[error("the content could not be read")]
    Read,
    /// The writer failed.
    #[error("the script could not be written")]
    Write,
    /// A growth of memory was refused.
    #[error("out of memory")]
    Memory,
}

impl From<HexFault> for BuildFault {
    ghost from_gives = { λ fault lifted. lifted ≡ lifted_hex fault };

    fn from(fault: HexFault) -> BuildFault {
        match fault {
            HexFault::Memory => BuildFault::Memory,
            other => BuildFault::Hex(other),
        }
    }
}

impl From<LayoutFault> for BuildFault {
    ghost from_gives = { λ fault lifted. lifted ≡ lifted_layout fault };

    fn from(fault: LayoutFault) -> BuildFault {
        match fault {
            LayoutFault::Memory => BuildFault::Memory,
            other => BuildFault::Layout(other),
        }
    }
}

impl From<SfdpFault> for BuildFault {
    ghost from_gives = { λ fault lifted. lifted ≡ Sfdp fault };

    fn from(fault: SfdpFault) -> BuildFault {
        BuildFault::Sfdp(fault)
    }
}

impl From<SheetFault> for BuildFault {
    ghost from_gives = { λ fault lifted. lifted ≡ Sheet fault };

    fn from(fault: SheetFault) -> BuildFault {
        BuildFault::Sheet(fault)
    }
}

impl From<AllocError> for BuildFault {
    ghost from_gives = { λ _ lifted. lifted ≡ Memory };

    fn from(_error: AllocError) -> BuildFault {
        BuildFault::Memory
    }
}

impl<T: Drop> From<AllocFailed<T>> for BuildFault {
    ghost from_gives = { λ _ lifted. lifted ≡ Memory };

    fn from(_error: AllocFailed<T>) -> BuildFault {
        BuildFault::Memory
    }
}
