//! What is reported beside an ending, and its status.

ghost use Rattle.std.specs.Prelude.{◌≡◌, ◌≤◌, false};
ghost use Rattle.nor_base.specs.Device.{Writes, Counts};
ghost use Rattle.norprog_common.specs.Told.{Says, output};
ghost use Rattle.norprog_player.specs.Line.{ending_line};
ghost use Rattle.norprog_player.specs.State.{is_partial, state_told, status_of};

use crate::ending::Ending;
use crate::line::write_ending;
use nor_base::{ByteOut, Failed, put_all};
use norprog_common::refuse_lines;
use norprog_device::is_sent;

/// What is written where the chip may hold a part of what the steps do.
const STATE: &[u8] =
    b"norprog: the chip is half done. Don't build the old HEX again: what must be on the chip is \
        what \
    `norprog run --out want.bin` of this script leaves. See: norprog explain the chip may hold\n";

/// Writes to `err` what to do with a chip that may hold a part of the work, and then the line of an
/// ending to `out`, or to `err` that it can't be written. Returns the status: 0 where all was done
/// and printed, 3 where the chip may hold a part of it, else 1.
pub fn report_ending<O: ByteOut, E: ByteOut>(ending: &Ending, out: &mut O, err: &mut E) -> u8
    ensures said { Says (state_told ending.now) (ending_line ending.now) (status_of ending.now)
        (output O.held O.count out.old out.new) (output E.held E.count err.old err.new) result }
    ensures status { result ≤ 3 }
    ensures quiet { result ≡ 0 → err.new ≡ err.old }
{
    let told = write_state(ending, err);
    match write_ending(ending, out) {
        Ok(()) => status_of(ending),
        Err(_) => refuse_lines(told, status_of(ending), err),
    }
}

/// Writes what to do with a chip that may hold a part of the work, where that is so.
fn write_state<E: ByteOut>(ending: &Ending, err: &mut E) -> Result<(), Failed>
    ensures bytes { Writes (E.held err.old) (E.held err.new) result (state_told ending.now) }
    ensures count { Counts (E.count err.old) (E.count err.new) result }
    ensures quiet { is_partial ending.now ≡ false → err.new ≡ err.old }
{
    if is_partial(ending) {
        put_all(err, STATE)
    } else {
        Ok(())
    }
}

/// Whether steps were sent, and not all of them are known to be done.
fn is_partial(ending: &Ending) -> bool
    ensures { result ≡ is_partial ending.now }
{
    match *ending {
        Ending::Failed { step, why } => is_sent(step, why),
        Ending::Done { .. } | Ending::Wrong { .. } | Ending::No { .. } | Ending::Unlike { .. } =>
            false,
    }
}

/// 0 where all was done, 3 where the chip may hold a part of it, else 1.
fn status_of(ending: &Ending) -> u8
    ensures { result ≡ status_of ending.now }
{
    match ending {
        Ending::Done { .. } => 0,
        Ending::Failed { .. } if is_partial(ending) => 3,
        Ending::Wrong { .. } | Ending::No { .. } => 1,
        Ending::Unlike { .. } | Ending::Failed { .. } => 1,
    }
}
