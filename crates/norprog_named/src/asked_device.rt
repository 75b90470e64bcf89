//! What the values of a command line of `read`, `play` and `flash` ask for.

ghost use Rattle.std.specs.Prelude.{◌≡◌, ◌≤◌, IfErr, IfOk};
ghost use Rattle.nor_job.specs.declared.fault.BuildFault.TheVariants.{Write};
ghost use Rattle.norprog_common.specs.Lines.{printed};
ghost use Rattle.norprog_common.specs.Told.{Tells, cut_status, output};
ghost use Rattle.norprog_common.specs.declared.faults.Refusal.TheVariants.{Build};
ghost use Rattle.norprog_files.specs.Files.{Did};
ghost use Rattle.norprog_named.specs.AskedDevice.{EndsPlayAsked, EndsReadAsked, Reported};
ghost use Rattle.norprog_named.specs.AskedDevice.{EndsFlashAsked, ReportsFlash, SaysFlash};
ghost use Rattle.norprog_named.specs.AskedDevice.{SaysPlay, SaysRead};
ghost use Rattle.norprog_named.specs.Flash.{StillWorks};
ghost use Rattle.norprog_flash.specs.Begun.{printed as on_screen};

use crate::flash_files::flash;
use crate::play_files::play;
use crate::read_files::read;
use nor_base::{ByteOut, Failed};
use norprog_common::{FlashArgs, PlayArgs, ReadArgs, Refusal, refuse, refuse_lines};
use norprog_device::refuse_device;
use norprog_files::{Files, Trail};
use norprog_flash::{
    Ending as Flashed, Unflashed, family_of, report_ending as report_flashed,
    request_of as work_of, write_closed,
};
use norprog_player::{Ending, Unplayed, report_ending, request_of as play_of};
use norprog_read::{Reading, Unread, request_of as reading_of, write_reading, write_unlike};
use std::alloc::Global;

/// Does what the values of a command line of `read` ask for. The lines go to `out`, a refusal to
/// `err`; how far it is to `progress`. Returns the status: 0 read, 1 not so or refused, 2 usage.
pub fn read_asked<F: Files, O: ByteOut, E: ByteOut, P: ByteOut>(
    alloc: Global,
    files: &F,
    trail: &mut F::Trail,
    given: ReadArgs<'_>,
    out: &mut O,
    err: &mut E,
    progress: &mut P,
) -> u8
    ensures status { result ≤ 3 }
    ensures quiet { result ≡ 0 → err.new ≡ err.old }
    ensures ends { Did (F.Trail.did trail.old) (F.Trail.did trail.new)
        (λ log. Reported (EndsReadAsked given.entry log) (SaysRead
        (output O.held O.count out.old out.new) (output E.held E.count err.old err.new)
        result)) }
{
    report_read(read_given(alloc, files, trail, given, progress), out, err)
}

/// Reads.
fn read_given<F: Files, P: ByteOut>(
    alloc: Global,
    files: &F,
    trail: &mut F::Trail,
    given: ReadArgs<'_>,
    progress: &mut P,
) -> Result<Reading, Unread>
    ensures { Did (F.Trail.did trail.old) (F.Trail.did trail.new)
        (λ log. EndsReadAsked given.entry log result) }
{
    match reading_of(given) {
        Some(request) => read(alloc, files, trail, request, progress),
        None => Err(Unread::Refused(Refusal::Usage)),
    }
}

/// Says what came of a reading. Returns the status.
fn report_read<O: ByteOut, E: ByteOut>(
    answer: Result<Reading, Unread>,
    out: &mut O,
    err: &mut E,
) -> u8
    ensures status { result ≤ 3 }
    ensures quiet { result ≡ 0 → err.new ≡ err.old }
    ensures says { SaysRead
        (output O.held O.count out.old out.new) (output E.held E.count err.old err.new)
        result answer }
{
    match answer {
        Ok(reading) => status_after(write_reading(&reading, out), 0, err),
        Err(Unread::Unlike(why)) => status_after(write_unlike(why, out), 1, err),
        Err(Unread::Device(fault)) => refuse_device(fault, err),
        Err(Unread::Refused(refusal)) => refuse(&refusal, err),
    }
}

/// The status after lines were printed; where they couldn't be, that is told.
fn status_after<E: ByteOut>(written: Result<(), Failed>, own: u8, err: &mut E) -> u8
    ensures done { IfOk written (λ _. (result ≡ own) × (err.new ≡ err.old)) }
    ensures told { IfErr written (λ _. (result ≡ cut_status own)
        × Tells (output E.held E.count err.old err.new) (printed (Build Write))) }
{
    match written {
        Ok(()) => own,
        Err(_) => refuse_lines(Ok(()), own, err),
    }
}

/// Does what the values of a command line of `play` ask for. The ending's line goes to `out`; a
/// refusal, and what to do with the chip, to `err`; the progress to `progress`. Returns the status:
/// 0 all done, 1 not so or refused, 2 usage, 3 the chip may hold a part of the work.
pub fn play_asked<F: Files, O: ByteOut, E: ByteOut, P: ByteOut>(
    alloc: Global,
    files: &F,
    trail: &mut F::Trail,
    given: PlayArgs<'_>,
    out: &mut O,
    err: &mut E,
    progress: &mut P,
) -> u8
    ensures status { result ≤ 3 }
    ensures quiet { result ≡ 0 → err.new ≡ err.old }
    ensures ends { Did (F.Trail.did trail.old) (F.Trail.did trail.new)
        (λ log. Reported (EndsPlayAsked (F.unread files.now) given.entry log) (SaysPlay
        (output O.held O.count out.old out.new) (output E.held E.count err.old err.new)
        result)) }
{
    report_play(play_given(alloc, files, trail, given, progress), out, err)
}

/// Plays.
fn play_given<F: Files, P: ByteOut>(
    alloc: Global,
    files: &F,
    trail: &mut F::Trail,
    given: PlayArgs<'_>,
    progress: &mut P,
) -> Result<Ending, Unplayed>
    ensures { Did (F.Trail.did trail.old) (F.Trail.did trail.new)
        (λ log. EndsPlayAsked (F.unread files.now) given.entry log result) }
{
    match play_of(given) {
        Some(request) => play(alloc, files, trail, request, progress),
        None => Err(Unplayed::Refused(Refusal::Usage)),
    }
}

/// Says what came of a play. Returns the status.
fn report_play<O: ByteOut, E: ByteOut>(
    answer: Result<Ending, Unplayed>,
    out: &mut O,
    err: &mut E,
) -> u8
    ensures status { result ≤ 3 }
    ensures quiet { result ≡ 0 → err.new ≡ err.old }
    ensures says { SaysPlay
        (output O.held O.count out.old out.new) (output E.held E.count err.old err.new)
        result answer }
{
    match answer {
        Ok(ending) => report_ending(&ending, out, err),
        Err(Unplayed::Device(fault)) => refuse_device(fault, err),
        Err(Unplayed::Refused(refusal)) => refuse(&refusal, err),
    }
}

/// Does what the values of a command line of `flash` ask for. Its lines go to `out`; a refusal, and
/// how to go on with a half done chip, to `err`; how far it is to `progress`. Returns the status: 0
/// all done, 1 not so or refused, 2 usage, 3 the chip may be half done.
pub fn flash_asked<F: Files, O: ByteOut, E: ByteOut, P: ByteOut>(
    alloc: Global,
    files: &F,
    trail: &mut F::Trail,
    given: FlashArgs<'_>,
    out: &mut O,
    err: &mut E,
    progress: &mut P,
) -> u8
    ensures status { result ≤ 3 }
    ensures quiet { result ≡ 0 → err.new ≡ err.old }
    ensures ends { Did (F.Trail.did trail.old) (F.Trail.did trail.new) (ReportsFlash given.entry
        (output O.held O.count out.old out.new) (output E.held E.count err.old err.new)
        result) }
{
    let answer = flash_given(alloc, files, trail, &given, out, progress);
    report_flash(answer, &given, out, err)
}

/// Programs.
fn flash_given<F: Files, O: ByteOut, P: ByteOut>(
    alloc: Global,
    files: &F,
    trail: &mut F::Trail,
    given: &FlashArgs<'_>,
    out: &mut O,
    progress: &mut P,
) -> Result<Flashed, Unflashed>
    ensures ends { Did (F.Trail.did trail.old) (F.Trail.did trail.new) (λ log. EndsFlashAsked
        given.now (on_screen (O.held out.old) (O.held out.new)) log result) }
    ensures works { StillWorks result (O.count out.old) (O.count out.new) }
{
    match work_of(given) {
        Some(request) => flash(alloc, files, trail, &request, out, progress),
        None => Err(Unflashed::Refused(Refusal::Usage)),
    }
}

/// Says what came of it. Returns the status.
fn report_flash<O: ByteOut, E: ByteOut>(
    answer: Result<Flashed, Unflashed>,
    given: &FlashArgs<'_>,
    out: &mut O,
    err: &mut E,
) -> u8
    ensures status { result ≤ 3 }
    ensures quiet { result ≡ 0 → err.new ≡ err.old }
    ensures says { SaysFlash given.now
        (output O.held O.count out.old out.new) (output E.held E.count err.old err.new)
        result answer }
{
    match answer {
        Ok(ending) => report_flashed(ending, given, out, err),
        Err(Unflashed::Refused(refusal)) => refuse(&refusal, err),
        Err(Unflashed::Device(fault)) => refuse_device(fault, err),
        Err(Unflashed::Unlike(why)) => status_after(write_unlike(why, out), 1, err),
        Err(Unflashed::Closed(status)) => {
            status_after(write_closed(family_of(given), status, out), 1, err)
        }
    }
}
