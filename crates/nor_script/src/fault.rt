//! Why a script is refused.

ghost use Rattle.std.specs.Prelude.{◌≡◌};
ghost use Rattle.nor_script.specs.declared.fault.ScriptFault.TheVariants.{Memory};
ghost use Rattle.nor_script.specs.declared.fault.ReadFault.TheVariants.{Script, Device};

use nor_base::Failed;
use std::alloc::{AllocError, AllocFailed};
use thiserror::Error;

/// Why a text is no script. Lines count from 1.
#[derive(Clone, Copy, Debug, PartialEq, Eq, Error)]
pub enum ScriptFault {
    /// The first line isn't `norscript 1` with its LF.
    #[error("script line {0}: not the header")]
    Header(u64),
    /// A line has none of the forms of a step, or the digits of a verify aren't pairs of lower-case
    /// ones.
    #[error("script line {0}: not the line of a step")]
    BadLine(u64),
    /// A byte among clocks is no symbol.
    #[error("script line {0}: a byte that is no symbol")]
    BadSymbol(u64),
    /// What comes after `end ` isn't the number of steps, in decimal without leading zeros.
    #[error("script line {0}: not the number of steps")]
    BadCount(u64),
    /// The text ends before an end line is closed; the line is the one that is missing or unclosed.
    #[error("script line {0}: no end line")]
    NoEnd(u64),
    /// Something stands after the end line.
    #[error("script line {0}: after the end line")]
    AfterEnd(u64),
    /// A growth of memory was refused.
    #[error("out of memory")]
    Memory,
}

impl From<AllocError> for ScriptFault {
    ghost from_gives = { λ _ fault. fault ≡ Memory };

    fn from(_error: AllocError) -> ScriptFault {
        ScriptFault::Memory
    }
}

impl<T: Drop> From<AllocFailed<T>> for ScriptFault {
    ghost from_gives = { λ _ fault. fault ≡ Memory };

    fn from(_error: AllocFailed<T>) -> ScriptFault {
        ScriptFault::Memory
    }
}

/// Why a script that is read out of a device is not read on.
#[derive(Clone, Copy, Debug, PartialEq, Eq, Error)]
pub enum ReadFault {
    /// The text is no script: its first fault. `Memory` where a growth of memory was refused.
    #[error(transparent)]
    Script(ScriptFault),
    /// The device failed.
    #[error(transparent)]
    Device(Failed),
}

impl From<AllocError> for ReadFault {
    ghost from_gives = { λ _ fault. fault ≡ Script Memory };

    fn from(_error: AllocError) -> ReadFault {
        ReadFault::Script(ScriptFault::Memory)
    }
}

impl From<ScriptFault> for ReadFault {
    ghost from_gives = { λ given fault. fault ≡ Script given };

    fn from(fault: ScriptFault) -> ReadFault {
        ReadFault::Script(fault)
    }
}

impl From<Failed> for ReadFault {
    ghost from_gives = { λ failed fault. fault ≡ Device failed };

    fn from(failed: Failed) -> ReadFault {
        ReadFault::Device(failed)
    }
}
