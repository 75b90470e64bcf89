//! Why there is no verdict.

ghost use Rattle.std.specs.Prelude.{◌≡◌};
ghost use Rattle.nor_job.specs.declared.fault.BuildFault.TheVariants.{Memory};
ghost use Rattle.norprog_check.specs.Lifted.{lifted_reading, lifted_script};
ghost use Rattle.norprog_check.specs.declared.fault.CheckStop.TheVariants.{Build};
ghost use Rattle.norprog_check.specs.declared.fault.StreamStop.TheVariants.{Check};

use nor_base::Failed;
use nor_check::CheckFault;
use nor_job::BuildFault;
use nor_script::{ReadFault, ScriptFault};
use thiserror::Error;

/// Why there is no verdict. Out of memory, also that of the script's reader, is `Build` of
/// `BuildFault::Memory`.
#[derive(Clone, Copy, Debug, PartialEq, Eq, Error)]
pub enum CheckStop {
    /// The inputs are refused as a build refuses them; or the content ended early or couldn't be
    /// read; or a growth of memory was refused.
    #[error(transparent)]
    Build(BuildFault),
    /// The text is no script: its first fault, never `Memory`.
    #[error(transparent)]
    Script(ScriptFault),
}

impl From<BuildFault> for CheckStop {
    ghost from_gives = { λ fault stop. stop ≡ Build fault };

    fn from(fault: BuildFault) -> CheckStop {
        CheckStop::Build(fault)
    }
}

impl From<ScriptFault> for CheckStop {
    ghost from_gives = { λ fault stop. stop ≡ lifted_script fault };

    fn from(fault: ScriptFault) -> CheckStop {
        match fault {
            ScriptFault::Memory => CheckStop::Build(BuildFault::Memory),
            other => CheckStop::Script(other),
        }
    }
}

impl From<CheckFault> for CheckStop {
    ghost from_gives = { λ _ stop. stop ≡ Build Memory };

    fn from(_fault: CheckFault) -> CheckStop {
        CheckStop::Build(BuildFault::Memory)
    }
}

/// Why there is no verdict on a script that a device tells.
#[derive(Clone, Copy, Debug, PartialEq, Eq, Error)]
pub enum StreamStop {
    /// As it is reported of a script in memory: the inputs, the first fault of a text, the content,
    /// or out of memory.
    #[error(transparent)]
    Check(CheckStop),
    /// The script's device failed.
    #[error(transparent)]
    Device(Failed),
}

impl From<BuildFault> for StreamStop {
    ghost from_gives = { λ fault stop. stop ≡ Check (Build fault) };

    fn from(fault: BuildFault) -> StreamStop {
        StreamStop::Check(CheckStop::Build(fault))
    }
}

impl From<ReadFault> for StreamStop {
    ghost from_gives = { λ fault stop. stop ≡ lifted_reading fault };

    fn from(fault: ReadFault) -> StreamStop {
        match fault {
            ReadFault::Script(fault) => StreamStop::Check(CheckStop::from(fault)),
            ReadFault::Device(failed) => StreamStop::Device(failed),
        }
    }
}
