//! What is reported of an ending, and its status.

ghost use Rattle.std.specs.Prelude.{◌≡◌, ◌≤◌, false};
ghost use Rattle.nor_base.specs.Device.{Counts, Writes};
ghost use Rattle.norprog_common.specs.Told.{Says, output};
ghost use Rattle.norprog_flash.specs.Answer.{family_of, state_told};
ghost use Rattle.norprog_flash.specs.Line.{ending_line, is_partial, status_of};
ghost use Rattle.norprog_flash.specs.State.{state_front, state_line};

use crate::compared::Comparison;
use crate::ending::Ending;
use crate::line::write_ending;
use crate::options::{first_name, write_way_on};
use nor_base::{ByteOut, Failed, Part, put_all, put_parts};
use norprog_common::{FlashArgs, part, refuse_lines};
use norprog_device::is_sent;

/// What is written around the name of the file that has what the chip held before the first try.
const HALF_DONE: &[u8] = b"norprog: the chip is half done, and what it held is in ";

const GO_ON: &[u8] =
    b". See: norprog explain the chip may hold. Switch its power off and on, and go on with: ";

/// Writes to `err` how to go on with a chip that may hold a part of the work, and then the line of
/// an ending to `out`, or to `err` that it can't be written. Returns the status: 0 where all was
/// done and printed, 3 where the chip may hold a part of the work, else 1.
pub fn report_ending<O: ByteOut, E: ByteOut>(
    ending: Ending,
    given: &FlashArgs<'_>,
    out: &mut O,
    err: &mut E,
) -> u8
    ensures said { Says (state_told ending given.now) (ending_line ending) (status_of ending)
        (output O.held O.count out.old out.new) (output E.held E.count err.old err.new) result }
    ensures status { result ≤ 3 }
    ensures quiet { result ≡ 0 → err.new ≡ err.old }
{
    let told = write_state(ending, given, err);
    match write_ending(ending, out) {
        Ok(()) => status_of(ending),
        Err(_) => refuse_lines(told, status_of(ending), err),
    }
}

/// Writes how to go on with a chip that may hold a part of the work, where that is so.
fn write_state<E: ByteOut>(ending: Ending, given: &FlashArgs<'_>, err: &mut E) -> Result<(), Failed>
    ensures bytes { Writes (E.held err.old) (E.held err.new) result (state_told ending given.now) }
    ensures count { Counts (E.count err.old) (E.count err.new) result }
    ensures quiet { is_partial ending ≡ false → err.new ≡ err.old }
{
    if is_partial(ending) {
        write_line(given, err)
    } else {
        Ok(())
    }
}

/// Writes the line on how to go on.
fn write_line<E: ByteOut>(given: &FlashArgs<'_>, err: &mut E) -> Result<(), Failed>
    ensures bytes { Writes (E.held err.old) (E.held err.new) result (state_line given.now) }
    ensures count { Counts (E.count err.old) (E.count err.new) result }
{
    write_front(first_name(given), err)?;
    write_way_on(given, err)?;
    put_all(err, b"\n")
}

/// Writes what comes before the command.
fn write_front<E: ByteOut>(first: &str, err: &mut E) -> Result<(), Failed>
    ensures bytes { Writes (E.held err.old) (E.held err.new) result (state_front first.now) }
    ensures count { Counts (E.count err.old) (E.count err.new) result }
{
    put_parts(err, &[HALF_DONE, first.as_bytes(), GO_ON])
}

/// Whether steps were sent, and the chip isn't known to hold what they leave.
fn is_partial(ending: Ending) -> bool
    ensures { result ≡ is_partial ending }
{
    match ending {
        Ending::Failed { step, why } => is_sent(step, why),
        Ending::Planned | Ending::Compared(_) | Ending::Done { .. } => false,
    }
}

/// 0 where all that was wanted was done or is so, 3 where the chip may hold a part of it, else 1.
fn status_of(ending: Ending) -> u8
    ensures { result ≡ status_of ending }
{
    match ending {
        Ending::Planned | Ending::Done { .. } => 0,
        Ending::Compared(Comparison::Same { .. }) => 0,
        Ending::Compared(Comparison::Differs { .. }) => 1,
        Ending::Failed { .. } if is_partial(ending) => 3,
        Ending::Failed { .. } => 1,
    }
}

/// The part that is named, else that of which nothing is known.
pub fn family_of(given: &FlashArgs<'_>) -> Part
    ensures { result ≡ family_of given.now }
{
    part(given.chip.part.unwrap_or("generic")).unwrap_or(Part::Generic)
}
