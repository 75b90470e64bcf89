//! The command that the words of a command line spell, done by the crate of that command, and what
//! more is said of its refusal.

ghost use Rattle.std.specs.Prelude.{◌≡◌, ◌≤◌, map, string_bytes, IfOk};
ghost use Rattle.norprog_common.specs.Told.{output};
ghost use Rattle.norprog_files.specs.Files.{Did};
ghost use Rattle.norprog_cli.specs.Answers.{AnswersLine, AnswersTo, AnswersWords, EndsHelp};
ghost use Rattle.norprog_cli.specs.Answers.{screen};

use nor_base::{ByteOut, put_all};
use norprog_common::{Refusal, answered, refuse};
use norprog_details::{Heard, explain, write_details};
use norprog_device::write_waiting;
use norprog_files::{Files, Trail};
use norprog_named::{
    build_asked, check_asked, draw_asked, flash_asked, hex_asked, list_asked, plan_asked,
    play_asked, read_asked, run_asked, script_asked, sfdp_asked,
};
use norprog_options::{Asked, Line, asked_by};
use std::alloc::Global;

/// Runs the command that the words spell, the program's name not among them. A refusal goes to
/// `err`; to `progress` which device is waited for, and how far readings and steps came. Returns
/// the status: 0 done, 1 refused or a script that doesn't do its job, 2 usage, 3 a chip that may be
/// half done.
pub fn command<F: Files, O: ByteOut, E: ByteOut + Drop, P: ByteOut>(
    alloc: Global,
    files: &F,
    trail: &mut F::Trail,
    words: Vec<String>,
    out: &mut O,
    err: &mut Heard<E>,
    progress: &mut P,
) -> u8
    ensures status { result ≤ 3 }
    ensures quiet { result ≡ 0 → err.new ≡ err.old }
    ensures answer { Did (F.Trail.did trail.old) (F.Trail.did trail.new)
        (AnswersWords (F.unread files.now) (map string_bytes words.items) (screen
        (output O.held O.count out.old out.new)
        (output ⟦<Heard<E> as ByteOut>⟧.held ⟦<Heard<E> as ByteOut>⟧.count err.old err.new))
        result) }
{
    match asked_by(alloc, words.as_slice(), err.terminal) {
        Ok(line) => answer_line(alloc, files, trail, line, out, err, progress),
        Err(refusal) => refuse(&refusal, err),
    }
}

/// Does what a command line asks for. Where more is to be said of its refusal that is written,
/// unless standard error failed meanwhile: then its line was cut.
fn answer_line<F: Files, O: ByteOut, E: ByteOut + Drop, P: ByteOut>(
    alloc: Global,
    files: &F,
    trail: &mut F::Trail,
    line: Line<'_>,
    out: &mut O,
    err: &mut Heard<E>,
    progress: &mut P,
) -> u8
    ensures status { result ≤ 3 }
    ensures quiet { result ≡ 0 → err.new ≡ err.old }
    ensures answer { Did (F.Trail.did trail.old) (F.Trail.did trail.new)
        (AnswersLine (F.unread files.now) line.entry (screen
        (output O.held O.count out.old out.new)
        (output ⟦<Heard<E> as ByteOut>⟧.held ⟦<Heard<E> as ByteOut>⟧.count err.old err.new))
        result) }
{
    let Line { asked, details } = line;
    let failures = err.failures();
    let status = answer_to(alloc, files, trail, asked, out, err, progress);
    let Some(typed) = details else {
        return status;
    };
    if status == 0 || err.failures() != failures {
        return status;
    }
    let refusal = err.last_line();
    write_details(
        alloc,
        files,
        trail,
        typed.as_line(),
        refusal.as_slice(),
        err,
    );
    status
}

/// Does what is asked for.
fn answer_to<F: Files, O: ByteOut, E: ByteOut, P: ByteOut>(
    alloc: Global,
    files: &F,
    trail: &mut F::Trail,
    asked: Asked<'_>,
    out: &mut O,
    err: &mut E,
    progress: &mut P,
) -> u8
    ensures status { result ≤ 3 }
    ensures quiet { result ≡ 0 → err.new ≡ err.old }
    ensures answer { Did (F.Trail.did trail.old) (F.Trail.did trail.new)
        (AnswersTo (F.unread files.now) asked.entry (screen (output O.held O.count out.old out.new)
        (output E.held E.count err.old err.new)) result) }
{
    match asked {
        Asked::Build(given) => answered(build_asked(alloc, files, trail, given, out), err),
        Asked::Plan(given) => answered(plan_asked(alloc, files, trail, given, out), err),
        Asked::Check(given) => answered(check_asked(alloc, files, trail, given, out), err),
        Asked::Run(given) => answered(run_asked(alloc, files, trail, given, out), err),
        Asked::List(given) => answered(list_asked(alloc, files, trail, given, out), err),
        Asked::Draw(given) => answered(draw_asked(alloc, files, trail, given), err),
        Asked::Play(given) => {
            say_waiting(given.device, progress);
            play_asked(alloc, files, trail, given, out, err, progress)
        }
        Asked::Read(given) => {
            say_waiting(given.device, progress);
            read_asked(alloc, files, trail, given, out, err, progress)
        }
        Asked::Flash(given) => {
            say_waiting(given.device, progress);
            flash_asked(alloc, files, trail, given, out, err, progress)
        }
        Asked::Sfdp(given) => answered(sfdp_asked(alloc, files, trail, given, out), err),
        Asked::Hex(given) => answered(hex_asked(alloc, files, trail, given), err),
        Asked::Script(given) => answered(script_asked(alloc, files, trail, given, out), err),
        Asked::Explain(words) => answered(explain(words.as_slice(), out), err),
        Asked::Help(text) => answered(help(text.as_str(), out), err),
    }
}

/// Writes a command's help. Returns the status, 0.
fn help<O: ByteOut>(text: &str, out: &mut O) -> Result<u8, Refusal>
    ensures status { IfOk result (λ status. status ≡ 0) }
    ensures ends { EndsHelp text.now (output O.held O.count out.old out.new) result }
{
    match put_all(out, text.as_bytes()) {
        Ok(()) => Ok(0),
        Err(_) => Err(Refusal::WRITE),
    }
}

/// Says which device is waited for, if one is named.
fn say_waiting<P: ByteOut>(device: Option<&str>, progress: &mut P) {
    if let Some(name) = device {
        let _ = write_waiting(name, progress);
    }
}
