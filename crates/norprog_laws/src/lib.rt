//! What a build, a check and a play say of each other, and a sheet and what `sfdp` prints. Each
//! function asks for laws of the
//! definitions and does nothing else: its contract is the law.
#![tactic(auto)]

mod sheets;
pub mod worked;

ghost use Rattle.norprog_laws.specs.Checked.{BuiltIsRight, BuiltIsChecked};
ghost use Rattle.norprog_laws.specs.Played.{BuiltPlays};
ghost use Rattle.norprog_laws.specs.Replay.{NoIsReplayed};
ghost use Rattle.norprog_laws.specs.Shown.{NoIsRun};

use nor_laws::{bounded_runs, script_texts};
pub use sheets::printed_sheets;

/// Of what a build wrote, a check says yes: whatever steps the text that it appended spells, the
/// worst verdict on them, on the chips, content and target of the build, is Yes; and Yes is what a
/// check says of that text, for the same inputs, on a reader that has the same bytes ahead and
/// tells them.
pub fn built_scripts()
    ensures right { BuiltIsRight }
    ensures checked { BuiltIsChecked }
{
    script_texts();
}

/// The script of a build reads back and plays: its text spells just the built steps, and a play of
/// them with any limit on polls, on any chip of the inputs that has the content that was read,
/// leaves the target. Or it stops because a poll said busy up to the limit, and for no other cause.
pub fn built_plays()
    ensures { BuiltPlays }
{
    script_texts();
}

/// What a check finds with a no, a run shows: on that chip, with the same text, meaning, start and
/// content and a limit above its number of status reads, it goes wrong at that step for that cause;
/// or it ends well, and the chip has another byte at that address.
pub fn noes_run()
    ensures { NoIsRun }
{
    script_texts();
    replay();
}

/// On the chip that shows a no a play of the steps, with any limit on polls above the chip's number
/// of status reads, goes wrong at the verdict's step for its cause; or it ends well and leaves
/// another byte than the target at the verdict's address.
pub fn replay()
    ensures { NoIsReplayed }
{
    bounded_runs();
}
