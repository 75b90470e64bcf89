//! The reader of a log's text.

ghost use Rattle.std.specs.Prelude.{IfOk, IfErr};
ghost use Rattle.std.specs.List.{AllByRecursion};
ghost use Rattle.nor_base.specs.Step.{IsStep};
ghost use Rattle.nor_log.specs.Log.{IsLog, Refuses};

use crate::fault::LogFault;
use crate::line::{Said, line_says};
use nor_base::Step;
use nor_lines::filled;
use std::alloc::Global;
use std::marker::Model;

/// What a log says.
#[derive(Drop)]
pub struct Log {
    /// The steps of its lines, in order.
    pub steps: Vec<Step>,
    /// The steps that were left out.
    pub left_out: Vec<Step>,
}

impl Model for Log {
    ghost use Rattle.nor_log.specs.Log.{Log};

    ghost Value = { Log };

    ghost view = { λ log. record { steps = log.steps.items; left_out = log.left_out.items } };
}

/// Reads a log: the step of each line, in order. `without_identity` leaves out those that only read
/// an identification or a register, opcodes 9Fh, 15h, 35h, ABh, 90h and 5Ah in their standard form.
///
/// `BadLine` has the number of the first line that says nothing that a log says. `Memory` where a
/// growth is refused.
pub fn read(alloc: Global, text: &[u8], without_identity: bool) -> Result<Log, LogFault>
    ensures read { IfOk result (IsLog without_identity text.now) }
    ensures steps { IfOk result (λ log. AllByRecursion IsStep log.steps) }
    ensures refused { IfErr result (Refuses text.now) }
{
    let mut steps = Vec::new(alloc);
    let mut left_out = Vec::new(alloc);
    for (number, line) in filled(text) {
        match line_says(alloc, line)? {
            Said::Nothing => {}
            Said::Does { step, identity } => {
                if without_identity && identity {
                    left_out.push(step)?;
                } else {
                    steps.push(step)?;
                }
            }
            Said::Strange => return Err(LogFault::BadLine(number)),
        }
    }
    Ok(Log { steps, left_out })
}
