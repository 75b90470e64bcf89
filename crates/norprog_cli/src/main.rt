//! The command line of norprog: `norprog build` writes the script that programs a chip, `norprog
//! plan` prints what that would erase and program, `norprog check` says whether a script does a
//! job, `norprog run` plays one on a chip in memory, `norprog list` tells what each step of one is,
//! `norprog draw` draws one as a waveform, `norprog play` plays one on a chip behind a serprog
//! device, `norprog read` reads such a chip, `norprog flash` programs it, `norprog sfdp` prints
//! what a chip's tables mean, `norprog hex` writes a raw image as Intel HEX, `norprog script`
//! writes the script of a log, `norprog explain` says what a printed text means.
//!
//! [`command`](command::command) does what the words spell; here they come from the process, and
//! what is printed goes out.
#![tactic(auto)]

ghost use Rattle.std.specs.Prelude.{◌≡◌, ◌<◌, ◌≤◌, [], codes, drop, false, map};
ghost use Rattle.std.specs.Prelude.{string_bytes, All, IfErr, IfOk, MatchResult};
ghost use Rattle.std.specs.Vec.Iter.{into_iter_items};
ghost use Rattle.nor_job.specs.declared.fault.BuildFault.TheVariants.{Memory};
ghost use Rattle.norprog_common.specs.Told.{output};
ghost use Rattle.norprog_common.specs.declared.faults.Refusal.TheVariants.{Build};
ghost use Rattle.norprog_cli.specs.Answers.{screen};
ghost use Rattle.norprog_files.specs.Files.{Did};
ghost use Rattle.norprog_files.specs.Trace.{reports};
ghost use Rattle.norprog_cli.specs.Ends.{EndsGiven, EndsOnSystem, EndsProgram, EndsWords};
ghost use Rattle.norprog_cli.specs.Ends.{IsAdded, IsWordless};
ghost use Rattle.norprog_cli.specs.Ends.{changes_none, texts_in};

mod command;
mod gathered;
mod noted;
mod object;
mod sheets;

use crate::command::command;
use crate::gathered::Gathered;
use crate::noted::Noted;
use crate::object::object_of;
use crate::sheets::name_sheet;
use nor_base::{ByteOut, Failed, IntoWrite, Nowhere, put_all};
use norprog_common::{Refusal, refuse};
use norprog_details::Heard;
use norprog_files::{Files, Places, System, Trail};
use std::alloc::{AllocError, Global};
use std::env::{self, Args};
use std::fs::{self, File};
use std::io::{self, ErrorKind, IsTerminal, Read, Write};
use std::process::ExitCode;
use std::time::Instant;

fn main(rt: HostRuntime) -> ExitCode {
    // the next files opened get the numbers of standard streams that were closed: a folder, which
    // can't be written to, takes these, so that no device or output does
    let _kept = [fs::open(&rt, "/"), fs::open(&rt, "/"), fs::open(&rt, "/")];
    let terminal = rt.stderr().is_terminal();
    let mut err = Heard::new(IntoWrite::new(rt.stderr()), terminal);
    let mut words = words_of(rt.alloc(), env::args(&rt));
    if let Ok(words) = &mut words {
        name_sheet(&rt, words);
    }
    ExitCode::from(main_status(&rt, words, &mut err))
}

/// Does what the program's words say, and returns the status. Where standard error is a terminal
/// which device is waited for goes there too, and how far steps came, and a refusal explains
/// itself. With `--json` how the command ended is written last, as an object. Of the system's files
/// and streams nothing is known.
fn main_status<E: ByteOut + Drop>(
    rt: &HostRuntime,
    words: Result<Vec<String>, Refusal>,
    err: &mut Heard<E>,
) -> u8
    ensures { EndsProgram (reports ⟦<File as Read>⟧.remaining ⟦<File as Write>⟧.contents)
        (texts_in (λ words. map string_bytes words.items) words)
        (output ⟦<Heard<E> as ByteOut>⟧.held ⟦<Heard<E> as ByteOut>⟧.count err.old err.new)
        result }
{
    let begun = Instant::now(rt);
    let accounted = accounted_in(rt.alloc(), &words);
    let device = Noted::new(rt.alloc(), IntoWrite::new(rt.stdout()), accounted.is_some());
    let mut out = Gathered::new(device);
    let status = answer_system(rt, words, &mut out, err);
    match accounted {
        Some(command) => {
            let millis = millis_since(rt, &begun);
            add_object(
                rt.alloc(),
                command.as_str(),
                status,
                millis,
                &mut out.out,
                err,
            )
        }
        None => status,
    }
}

/// The command's name, where the words ask for an account of how it ends.
fn accounted_in(alloc: Global, words: &Result<Vec<String>, Refusal>) -> Option<String> {
    let words = words.as_ref().ok()?;
    if !words.iter().any(|word| word.as_str() == "--json") {
        return None;
    }
    String::from_str(alloc, words.first()?.as_str()).ok()
}

/// For how long the program runs, in milliseconds, if the clock can be read.
fn millis_since(rt: &HostRuntime, begun: &io::Result<Instant>) -> Option<u64> {
    let begun = begun.as_ref().ok()?;
    u64::try_from(begun.elapsed(rt).ok()?.as_millis()).ok()
}

/// Writes how a command ended as an object behind what it printed. Returns the status; 1 where the
/// command was done and that failed, which is reported.
fn add_object<W: ByteOut + Drop, E: ByteOut + Drop>(
    alloc: Global,
    command: &str,
    status: u8,
    millis: Option<u64>,
    out: &mut Noted<W>,
    err: &mut Heard<E>,
) -> u8
    ensures { IsAdded status
        (output ⟦<Heard<E> as ByteOut>⟧.held ⟦<Heard<E> as ByteOut>⟧.count err.old err.new)
        (err.new ≡ err.old) result }
{
    let refusal = err.last_line();
    let object = object_of(
        alloc,
        command,
        status,
        millis,
        refusal.as_slice(),
        out.text(),
    );
    match put_object(object, out) {
        Err(_) if status == 0 => refuse(&Refusal::WRITE, err),
        _ => status,
    }
}

/// Writes an object, if there was memory for it.
fn put_object<W: ByteOut>(object: Result<Vec<u8>, AllocError>, out: &mut W) -> Result<(), Failed> {
    match object {
        Ok(object) => put_all(out, object.as_slice()),
        Err(_) => Err(Failed),
    }
}

/// Does what words say on the system's files as [`answer_given`] does.
fn answer_system<W: ByteOut + Drop, E: ByteOut + Drop>(
    rt: &HostRuntime,
    words: Result<Vec<String>, Refusal>,
    out: &mut Gathered<W>,
    err: &mut Heard<E>,
) -> u8
    requires left { out.old.left.items ≡ [] }
    ensures quiet { result ≡ 0 → err.new ≡ err.old }
    ensures ends { EndsOnSystem (reports ⟦<File as Read>⟧.remaining ⟦<File as Write>⟧.contents)
        (texts_in (λ words. map string_bytes words.items) words)
        (screen (output W.held W.count out.old.out out.new.out)
        (output ⟦<Heard<E> as ByteOut>⟧.held ⟦<Heard<E> as ByteOut>⟧.count err.old err.new))
        result }
{
    let alloc = rt.alloc();
    let files = System::new(rt);
    let mut trail = Places::new(alloc);
    if err.terminal {
        let mut progress = IntoWrite::new(rt.stderr());
        answer_given(alloc, &files, &mut trail, words, out, err, &mut progress)
    } else {
        answer_given(alloc, &files, &mut trail, words, out, err, &mut Nowhere)
    }
}

/// Does what words say as [`answer`] does; where there are no words, reports why. Returns the
/// status.
fn answer_given<F: Files, W: ByteOut + Drop, E: ByteOut + Drop, P: ByteOut>(
    alloc: Global,
    files: &F,
    trail: &mut F::Trail,
    words: Result<Vec<String>, Refusal>,
    out: &mut Gathered<W>,
    err: &mut Heard<E>,
    progress: &mut P,
) -> u8
    requires left { out.old.left.items ≡ [] }
    ensures quiet { result ≡ 0 → err.new ≡ err.old }
    ensures ends { Did (F.Trail.did trail.old) (F.Trail.did trail.new)
        (EndsGiven (F.unread files.now) (texts_in (λ words. map string_bytes words.items) words)
        (screen (output W.held W.count out.old.out out.new.out)
        (output ⟦<Heard<E> as ByteOut>⟧.held ⟦<Heard<E> as ByteOut>⟧.count err.old err.new))
        result) }
{
    match words {
        Ok(words) => answer(alloc, files, trail, words, out, err, progress),
        Err(refusal) => refuse(&refusal, err),
    }
}

/// Does what words say, with what is printed gathered, and has that go out. What `flash` and
/// `erase` print isn't gathered: the plan goes out before the first step is sent, or no step is.
/// Returns the status; 1 where the words' command was done and that failed, which is reported.
fn answer<F: Files, W: ByteOut + Drop, E: ByteOut + Drop, P: ByteOut>(
    alloc: Global,
    files: &F,
    trail: &mut F::Trail,
    words: Vec<String>,
    out: &mut Gathered<W>,
    err: &mut Heard<E>,
    progress: &mut P,
) -> u8
    requires left { out.old.left.items ≡ [] }
    ensures quiet { result ≡ 0 → err.new ≡ err.old }
    ensures ends { Did (F.Trail.did trail.old) (F.Trail.did trail.new)
        (EndsWords (F.unread files.now) (map string_bytes words.items)
        (screen (output W.held W.count out.old.out out.new.out)
        (output ⟦<Heard<E> as ByteOut>⟧.held ⟦<Heard<E> as ByteOut>⟧.count err.old err.new))
        result) }
{
    if changes_chip(words.as_slice()) {
        return command(alloc, files, trail, words, &mut out.out, err, progress);
    }
    let status = command(alloc, files, trail, words, out, err, progress);
    match out.send() {
        Err(_) if status == 0 => refuse(&Refusal::WRITE, err),
        _ => status,
    }
}

/// Whether some word is the name of a command that changes a chip.
fn changes_chip(words: &[String]) -> bool
    ensures { result ≡ false → All (λ word. changes_none (string_bytes word)) words.now }
{
    words.iter().any(|word| word.as_str() == "flash" || word.as_str() == "erase")
}

/// The words after the program's name, of those that it was given.
fn words_of(alloc: Global, given: io::Result<Args>) -> Result<Vec<String>, Refusal>
    ensures words { IfOk result (λ words. MatchResult given
        (λ given. words.items ≡ drop 1 (into_iter_items given)) (λ _. ⊥)) }
    ensures wordless { IfErr result IsWordless }
{
    match given {
        Ok(given) => words_after_name(alloc, given),
        Err(error) if error.kind() == ErrorKind::OutOfMemory => Err(Refusal::MEMORY),
        Err(_) => Err(Refusal::Usage),
    }
}

/// All words but the first.
fn words_after_name(alloc: Global, words: Args) -> Result<Vec<String>, Refusal>
    ensures words { IfOk result (λ found. found.items ≡ drop 1 (into_iter_items words)) }
    ensures memory { IfErr result (λ why. why ≡ Build Memory) }
{
    match words.skip(1).collect(alloc) {
        Ok(words) => Ok(words),
        Err(_) => Err(Refusal::MEMORY),
    }
}
