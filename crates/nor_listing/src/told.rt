//! The step that the words of a line say.

ghost use Rattle.std.specs.Prelude.{◌≡◌, ◌≢◌, ◌≤◌, Some, IfOk, option_map};
ghost use Rattle.nor_base.specs.Run.{poll_clocks};
ghost use Rattle.nor_base.specs.declared.step.Step.TheVariants.{Poll};
ghost use Rattle.nor_listing.specs.Parts.{asked_by, clocks_by, data_at, framed, load_by, on_four};
ghost use Rattle.nor_listing.specs.Parts.{place_at, sampled};
ghost use Rattle.nor_listing.specs.Parts.{sends_in, sends_by, single, status_in, verified_in};
ghost use Rattle.nor_listing.specs.Parts.{verified_by, IsCopied, IsTold, IsToldBy};
ghost use Rattle.nor_script.specs.declared.fault.ScriptFault.TheVariants.{Memory};
ghost use Rattle.nor_select.specs.Coded.{plain as none};
ghost use Rattle.nor_select.specs.View.{load_in};

use crate::digits::bytes_of;
use crate::parts::{Data, Place, Word, cut, data_of, data_on, opcode_of, place_of, word_of};
use nor_base::{Bytes, Meaning, Step};
use nor_decode::POLL;
use nor_frames::{FramesFault, clocks_into};
use nor_script::{ScriptFault, faultless_scripts, read};
use nor_select::{Body, Instr};
use std::alloc::{AllocError, Global};

/// How a read samples.
#[derive(Clone, Copy)]
pub(crate) struct Reading {
    /// Clocks between address and data.
    dummies: u8,
    /// Clocks of a byte.
    clocks: u64,
    /// The symbol of a clock.
    symbol: u8,
}

/// The step that words say, on a chip whose instruction takes this number of address bytes, where
/// it takes some. Of other words it says something, too.
pub(crate) fn step_told(
    alloc: Global,
    meaning: &Meaning,
    width: u8,
    words: &[u8],
) -> Result<Option<Step>, AllocError>
    requires { width ≤ 4 }
    ensures { IfOk result (IsTold meaning.now width words.now) }
{
    let (word, text) = cut(words);
    match word_of(word) {
        Some(word) => step_by(alloc, meaning, width, word, text),
        None => Ok(None),
    }
}

/// The step of a word and what comes after it.
fn step_by(
    alloc: Global,
    meaning: &Meaning,
    width: u8,
    word: Word,
    text: &[u8],
) -> Result<Option<Step>, AllocError>
    requires { width ≤ 4 }
    ensures { IfOk result (IsToldBy meaning.now width (Some word) text.now) }
{
    match word {
        Word::Poll => Ok(Some(poll(alloc)?)),
        Word::Copy => copied(alloc, text),
        Word::Verify => verified(alloc, width, single(), text),
        Word::QuadVerify => verified(alloc, width, quad(meaning), text),
        word => match clocks_told(alloc, meaning, width, word, text)? {
            Some(clocks) => Ok(Some(Step::Send {
                clocks: Bytes::new(clocks),
            })),
            None => Ok(None),
        },
    }
}

/// The step of a poll.
fn poll(alloc: Global) -> Result<Step, AllocError>
    ensures { IfOk result (λ step. step ≡ Poll poll_clocks) }
{
    let clocks = Bytes::new(Vec::from_slice(alloc, POLL)?);
    Ok(Step::Poll { clocks })
}

/// How a chip reads on one lane.
fn single() -> Reading
    ensures { result ≡ single }
{
    Reading {
        dummies: 0,
        clocks: 8,
        symbol: b'.',
    }
}

/// How a chip reads on four lanes.
fn quad(meaning: &Meaning) -> Reading
    ensures { result ≡ on_four meaning.now }
{
    let dummies = match meaning.quad_read {
        Some(read) => read.dummies,
        None => 0,
    };
    Reading {
        dummies,
        clocks: 2,
        symbol: b'=',
    }
}

/// The step of a script's line.
fn copied(alloc: Global, line: &[u8]) -> Result<Option<Step>, AllocError>
    ensures { IfOk result (IsCopied line.now) }
{
    faultless_scripts();
    let mut text = Vec::from_slice(alloc, b"norscript 1\n")?;
    text.extend_from_slice(line)?;
    text.extend_from_slice(b"\nend 1\n")?;
    match read(alloc, text.as_slice()) {
        Ok(steps) => {
            let mut steps = steps;
            Ok(steps.pop())
        }
        Err(fault) => {
            unless_memory(fault)?;
            Ok(None)
        }
    }
}

/// That a text is no script, and not for memory.
fn unless_memory(fault: ScriptFault) -> Result<(), AllocError>
    ensures { IfOk result (λ _. fault ≢ Memory) }
{
    match fault {
        ScriptFault::Memory => Err(AllocError),
        _ => Ok(()),
    }
}

/// The step of `OO AAAAAAAA n HEX`, which reads n bytes and expects HEX.
fn verified(
    alloc: Global,
    width: u8,
    reading: Reading,
    text: &[u8],
) -> Result<Option<Step>, AllocError>
    requires { width ≤ 4 }
    ensures { IfOk result (λ found. found ≡ verified_in width reading text.now) }
{
    match data_on(text) {
        Some(parts) => verified_by(alloc, width, reading, parts),
        None => Ok(None),
    }
}

fn verified_by(
    alloc: Global,
    width: u8,
    reading: Reading,
    parts: Data<'_>,
) -> Result<Option<Step>, AllocError>
    requires { width ≤ 4 }
    ensures { IfOk result (λ found. found ≡ verified_by width reading (data_at parts.entry)) }
{
    match bytes_of(alloc, parts.digits)? {
        Some(expect) => {
            let clocks = sampling(alloc, parts.place, width, reading, parts.count)?;
            Ok(Some(Step::Verify {
                clocks: Bytes::new(clocks),
                expect: Bytes::new(expect),
            }))
        }
        None => Ok(None),
    }
}

/// The clocks that are sent by a word and what comes after it.
fn clocks_told(
    alloc: Global,
    meaning: &Meaning,
    width: u8,
    word: Word,
    text: &[u8],
) -> Result<Option<Vec<u8>>, AllocError>
    requires { width ≤ 4 }
    ensures { IfOk result (λ found. option_map (λ v. v.items) found
        ≡ clocks_by meaning.now width word text.now) }
{
    match word {
        Word::Bare => plain(alloc, opcode_of(text), 0),
        Word::Status => status(alloc, text),
        Word::Erase => plain(alloc, place_of(text), width),
        Word::Program => programmed(alloc, width, false, text),
        Word::QuadProgram => programmed(alloc, width, true, text),
        Word::Read => asked(alloc, width, single(), data_on(text)),
        Word::QuadRead => asked(alloc, width, quad(meaning), data_on(text)),
        _ => Ok(None),
    }
}

/// The clocks of an instruction without data.
fn plain(alloc: Global, place: Option<Place<'_>>, width: u8) -> Result<Option<Vec<u8>>, AllocError>
    requires { width ≤ 4 }
    ensures { IfOk result (λ found. option_map (λ v. v.items) found
        ≡ option_map (λ p. framed p width 0 none) (option_map place_at place.entry)) }
{
    match place {
        Some(place) => Ok(Some(clocks_of(alloc, place, width, 0, Body::Plain)?)),
        None => Ok(None),
    }
}

/// The clocks of `OO n`, a status read of n bytes.
fn status(alloc: Global, text: &[u8]) -> Result<Option<Vec<u8>>, AllocError>
    ensures { IfOk result (λ found. option_map (λ v. v.items) found ≡ status_in text.now) }
{
    match opcode_of(text) {
        Some(place) => asked(alloc, 0, single(), data_of(place)),
        None => Ok(None),
    }
}

/// The clocks of a read of n bytes.
fn asked(
    alloc: Global,
    width: u8,
    reading: Reading,
    parts: Option<Data<'_>>,
) -> Result<Option<Vec<u8>>, AllocError>
    requires { width ≤ 4 }
    ensures { IfOk result (λ found. option_map (λ v. v.items) found
        ≡ option_map (asked_by width reading) (option_map data_at parts.entry)) }
{
    match parts {
        Some(parts) => Ok(Some(sampling(alloc, parts.place, width, reading, parts.count)?)),
        None => Ok(None),
    }
}

/// The clocks of `OO AAAAAAAA n HEX`, which sends HEX.
fn programmed(
    alloc: Global,
    width: u8,
    four: bool,
    text: &[u8],
) -> Result<Option<Vec<u8>>, AllocError>
    requires { width ≤ 4 }
    ensures { IfOk result (λ found. option_map (λ v. v.items) found
        ≡ sends_in four width text.now) }
{
    match data_on(text) {
        Some(parts) => sending(alloc, width, four, parts),
        None => Ok(None),
    }
}

fn sending(
    alloc: Global,
    width: u8,
    four: bool,
    parts: Data<'_>,
) -> Result<Option<Vec<u8>>, AllocError>
    requires { width ≤ 4 }
    ensures { IfOk result (λ found. option_map (λ v. v.items) found
        ≡ sends_by four width (data_at parts.entry)) }
{
    match bytes_of(alloc, parts.digits)? {
        Some(bytes) => {
            let body = body_of(four, bytes.as_slice());
            Ok(Some(clocks_of(alloc, parts.place, width, 0, body)?))
        }
        None => Ok(None),
    }
}

/// Bytes that are sent on one lane or on four.
fn body_of(four: bool, bytes: &[u8]) -> Body<'_>
    ensures { load_in result ≡ load_by four bytes.now }
{
    if four {
        Body::Write4(bytes)
    } else {
        Body::Write1(bytes)
    }
}

/// The clocks of a read of a number of bytes.
fn sampling(
    alloc: Global,
    place: Place<'_>,
    width: u8,
    reading: Reading,
    count: u64,
) -> Result<Vec<u8>, AllocError>
    requires { width ≤ 4 }
    ensures { IfOk result (λ clocks. clocks.items
        ≡ sampled (place_at place.entry) width reading count) }
{
    let mut clocks = clocks_of(alloc, place, width, reading.dummies, Body::Plain)?;
    let data = count.checked_mul(reading.clocks).ok_or(AllocError)?;
    let len = clocks.len().checked_add(data as usize).ok_or(AllocError)?;
    clocks.resize(len, reading.symbol)?;
    Ok(clocks)
}

/// The clocks of an instruction.
fn clocks_of(
    alloc: Global,
    place: Place<'_>,
    width: u8,
    dummies: u8,
    body: Body<'_>,
) -> Result<Vec<u8>, AllocError>
    requires { width ≤ 4 }
    ensures { IfOk result (λ clocks. clocks.items
        ≡ framed (place_at place.entry) width dummies (load_in body.entry)) }
{
    let instr = Instr {
        op: place.op,
        address: place.address,
        width,
        dummies,
        body,
    };
    let mut clocks = Vec::new(alloc);
    match clocks_into(&instr, &mut clocks) {
        Ok(()) => Ok(clocks),
        Err(FramesFault::Memory) => Err(AllocError),
    }
}
