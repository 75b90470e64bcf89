//! What is written after the line of a refusal.

ghost use Rattle.std.specs.Prelude.{◌≡◌};
ghost use Rattle.norprog_details.specs.Details.{AreLooks, LooksAgain, path_of};
ghost use Rattle.norprog_files.specs.Files.{Did};

use crate::passage::{passage_of, shown_line};
use crate::seems::add_advice;
use crate::subject::{is_about, region_of};
use crate::teller::write_topic;
use crate::text::add;
use crate::typed::{CommandLine, Typed, is_typed};
use crate::usage::add_usage;
use nor_base::{ByteOut, put_all};
use norprog_common::FileName;
use norprog_files::{Files, Trail};
use std::alloc::{AllocError, Global};

/// Writes what more there is to say of a refusal's line, without its LF (docs/FORMATS.md, section
/// 9). It asks only about the files of the options that the line is about, and reads each once, if
/// it's regular.
///
/// Where `err` fails, or memory runs out, the rest is left out; so is a line that can't be read
/// again.
pub fn write_details<F: Files, E: ByteOut>(
    alloc: Global,
    files: &F,
    trail: &mut F::Trail,
    line: CommandLine<'_>,
    refusal: &[u8],
    err: &mut E,
)
    ensures { Did (F.Trail.did trail.old) (F.Trail.did trail.new)
        (LooksAgain line.entry.typed.now) }
{
    let said = said_of(alloc, files, trail, line, refusal);
    write_said(said, refusal, err);
}

/// Writes it, and the paragraph of `explain`, if there is one.
fn write_said<E: ByteOut>(said: Result<Vec<u8>, AllocError>, refusal: &[u8], err: &mut E) {
    let Ok(said) = said else {
        return;
    };
    if put_all(err, said.as_slice()).is_ok() {
        let _ = write_topic(words_after(refusal), err);
    }
}

/// The line of a refusal without the program's name.
fn words_after(refusal: &[u8]) -> &[u8] {
    match refusal.strip_prefix(b"norprog: ") {
        Some(words) => words,
        None => refusal,
    }
}

/// All but the paragraph.
fn said_of<F: Files>(
    alloc: Global,
    files: &F,
    trail: &mut F::Trail,
    line: CommandLine<'_>,
    refusal: &[u8],
) -> Result<Vec<u8>, AllocError>
    ensures { Did (F.Trail.did trail.old) (F.Trail.did trail.new)
        (LooksAgain line.entry.typed.now) }
{
    let mut said = Vec::new(alloc);
    for option in line.typed {
        add_told(alloc, files, trail, line, *option, refusal, &mut said)?;
    }
    if said.is_empty() {
        add_rest(line, refusal, &mut said)?;
    }
    Ok(said)
}

/// Adds what is said of an option, if the line of a refusal is about it.
fn add_told<F: Files>(
    alloc: Global,
    files: &F,
    trail: &mut F::Trail,
    line: CommandLine<'_>,
    option: Typed<'_>,
    refusal: &[u8],
    said: &mut Vec<u8>,
) -> Result<(), AllocError>
    ensures { Did (F.Trail.did trail.old) (F.Trail.did trail.new)
        (AreLooks (path_of line.entry.typed.now option.entry)) }
{
    if !is_about(refusal, option.name) {
        return Ok(());
    }
    let file = file_of(line.typed, option);
    let seen = look_at(alloc, files, trail, file, refusal);
    add_seen(option, seen, line.regions, refusal, said)
}

/// An option with the path of its file: a job's `--bin`, which has no `--at`, without PLACE=.
fn file_of<'a>(typed: &[Typed<'_>], option: Typed<'a>) -> Typed<'a>
    ensures { result.value.now ≡ path_of typed.now option.entry }
{
    if option.name != "bin" || is_typed(typed, "at") {
        return option;
    }
    match option.value.split_once('=') {
        Some((_place, path)) => Typed {
            name: option.name,
            value: path,
        },
        None => option,
    }
}

/// Adds an option with what is seen of its file. The region that the line of a refusal counts comes
/// after the first one.
fn add_seen(
    option: Typed<'_>,
    seen: Seen,
    regions: &[&str],
    refusal: &[u8],
    said: &mut Vec<u8>,
) -> Result<(), AllocError> {
    let Seen { trouble, text } = seen;
    let first = said.is_empty();
    add_option(option, trouble, said)?;
    if first {
        add_region(regions, refusal, said)?;
    }
    add_line(refusal, text.as_slice(), said)?;
    add_advice(option.name, option.value, text.as_slice(), said)
}

/// Adds what is said of a refusal that is about no option: of usage, which values aren't of their
/// forms.
fn add_rest(line: CommandLine<'_>, refusal: &[u8], said: &mut Vec<u8>) -> Result<(), AllocError> {
    if refusal == b"norprog: usage".as_slice() {
        add_usage(line, said)
    } else {
        add_region(line.regions, refusal, said)
    }
}

/// What is seen of a file.
struct Seen {
    /// What the system says of it, where it doesn't open it.
    trouble: Option<String>,
    /// What it has, if it is a text.
    text: Vec<u8>,
}

/// Looks at the file of an option again.
fn look_at<F: Files>(
    alloc: Global,
    files: &F,
    trail: &mut F::Trail,
    option: Typed<'_>,
    refusal: &[u8],
) -> Seen
    ensures { Did (F.Trail.did trail.old) (F.Trail.did trail.new)
        (AreLooks option.entry.value.now) }
{
    let trouble = trouble_of(alloc, files, trail, option, refusal);
    let text = held_by(alloc, files, trail, option);
    Seen { trouble, text }
}

/// What the system says of the file that an option names, where it doesn't open it. A device is
/// asked about as one only where it couldn't be opened: no other refusal has it opened again.
fn trouble_of<F: Files>(
    alloc: Global,
    files: &F,
    trail: &mut F::Trail,
    option: Typed<'_>,
    refusal: &[u8],
) -> Option<String>
    ensures { Did (F.Trail.did trail.old) (F.Trail.did trail.new)
        (AreLooks option.entry.value.now) }
{
    if !is_read(option.name) {
        return None;
    }
    if refusal == b"norprog: file device".as_slice() {
        files.device_trouble(trail, alloc, option.value)
    } else {
        files.trouble(trail, alloc, option.value)
    }
}

/// Whether the value of an option of this name is a file that the system may be asked about.
fn is_read(name: &str) -> bool {
    match name {
        "hex" | "layout" | "sfdp" | "content" | "script" | "log" | "bin" | "resume" | "device" => {
            true
        }
        _ => false,
    }
}

/// What the file of an option of a text gives; nothing where it can't be read, or would be waited
/// for, as a pipe.
fn held_by<F: Files>(alloc: Global, files: &F, trail: &mut F::Trail, option: Typed<'_>) -> Vec<u8>
    ensures { Did (F.Trail.did trail.old) (F.Trail.did trail.new)
        (AreLooks option.entry.value.now) }
{
    let Some(name) = text_of(option.name) else {
        return Vec::new(alloc);
    };
    if !files.is_regular(trail, option.value) {
        return Vec::new(alloc);
    }
    match files.read(trail, alloc, option.value, name) {
        Ok(text) => text,
        Err(_) => Vec::new(alloc),
    }
}

/// Which text the option of this name names, if it names one.
fn text_of(name: &str) -> Option<FileName> {
    match name {
        "hex" => Some(FileName::Hex),
        "layout" => Some(FileName::Layout),
        "sheet" => Some(FileName::Sheet),
        "script" => Some(FileName::Script),
        "log" => Some(FileName::Log),
        _ => None,
    }
}

/// Adds an option with its value, and what the system says of its file.
fn add_option(
    option: Typed<'_>,
    trouble: Option<String>,
    said: &mut Vec<u8>,
) -> Result<(), AllocError> {
    let name = option.name.as_bytes();
    let value = option.value.as_bytes();
    match trouble {
        Some(words) => add(
            said,
            &[b"--", name, b" ", value, b": ", words.as_bytes(), b"\n"],
        ),
        None => add(said, &[b"--", name, b" ", value, b"\n"]),
    }
}

/// Adds the name of the region that the line of a refusal counts.
fn add_region(regions: &[&str], refusal: &[u8], said: &mut Vec<u8>) -> Result<(), AllocError> {
    match region_of(regions, refusal) {
        Some(name) => add(said, &[b"region ", name.as_bytes(), b"\n"]),
        None => Ok(()),
    }
}

/// Adds the line of a text at which a refusal is, if it is at one.
fn add_line(refusal: &[u8], text: &[u8], said: &mut Vec<u8>) -> Result<(), AllocError> {
    match passage_of(refusal, text) {
        Some((number, line)) => shown_line(number, line, said),
        None => Ok(()),
    }
}
