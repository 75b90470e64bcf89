//! The reader of scripts.

ghost use Rattle.std.specs.Prelude.{◌≡◌, false, [], IfOk, IfErr, MatchOption};
ghost use Rattle.std.specs.List.{list_any};
ghost use Rattle.nor_base.specs.Script.{IsScript};
ghost use Rattle.nor_script.specs.Faults.{is_line_feed, BeginsWith, Refuses, AreAbove};

use crate::fault::ScriptFault;
use crate::line::{check_count, place_of};
use crate::owned::step_on;
use nor_base::Step;
use std::alloc::Global;

/// Reads a script: exactly the texts that [`crate::begin`], [`crate::write_step`] and
/// [`crate::finish`] write (docs/FORMATS.md, "Script text").
///
/// The first fault is reported with its line, counted from 1, as [`ScriptFault`] has them: of one
/// line `NoEnd` first, and a fault of its clocks before one of its bytes. `Memory` where a growth
/// is refused.
pub fn read(alloc: Global, text: &[u8]) -> Result<Vec<Step>, ScriptFault>
    ensures read { IfOk result (λ steps. IsScript text.now steps.items) }
    ensures refused { IfErr result (Refuses text.now) }
{
    let (steps, end) = read_until_fault(alloc, text);
    end?;
    Ok(steps)
}

/// Reads a script as [`read`] does, and keeps the steps above the first fault: those whose lines
/// stand whole above its line. So `Header` comes with none, and `AfterEnd` with all steps of the
/// script that something follows. Of the steps that come with `Memory` nothing is said.
pub fn read_until_fault(alloc: Global, text: &[u8]) -> (Vec<Step>, Result<(), ScriptFault>)
    ensures read { IfOk result.1 (λ _. IsScript text.now result.0.items) }
    ensures refused { IfErr result.1 (Refuses text.now) }
    ensures above { IfErr result.1 (AreAbove text.now result.0.items) }
{
    let mut steps = Vec::new(alloc);
    let end = read_steps(alloc, text, &mut steps);
    (steps, end)
}

/// Reads the steps of a script, up to its first fault.
fn read_steps(alloc: Global, text: &[u8], steps: &mut Vec<Step>) -> Result<(), ScriptFault>
    requires { steps.old.items ≡ [] }
    ensures read { IfOk result (λ _. IsScript text.now steps.new.items) }
    ensures refused { IfErr result (Refuses text.now) }
    ensures above { IfErr result (AreAbove text.now steps.new.items) }
{
    let Some(body) = text.strip_prefix(b"norscript 1\n") else {
        return Err(ScriptFault::Header(1));
    };
    let mut rest = body;
    while let Some((line, more)) = first_line(rest) {
        let count = steps.len() as u64;
        if let Some(digits) = line.strip_prefix(b"end ") {
            check_count(count, digits)?;
            return if more.is_empty() {
                Ok(())
            } else {
                Err(ScriptFault::AfterEnd(count + 3))
            };
        }
        steps.push(step_on(alloc, count + 2, line)?)?;
        rest = more;
    }
    Err(ScriptFault::NoEnd(steps.len() as u64 + 2))
}

/// The first line of a text, without the LF that closes it, and what stands after that; None where
/// no LF stands in the text.
pub fn first_line(text: &[u8]) -> Option<(&[u8], &[u8])>
    ensures { MatchOption result (list_any is_line_feed text.now ≡ false)
        (λ cut. BeginsWith text.now cut.0.now cut.1.now) }
{
    let Some(end) = place_of(b'\n', text) else {
        return None;
    };
    Some((&text[..end], &text[end + 1..]))
}
