//! What one line of a log says.

ghost use Rattle.std.specs.Prelude.{◌≡◌, false, IfOk};
ghost use Rattle.nor_base.specs.Run.{poll_clocks};
ghost use Rattle.nor_base.specs.declared.step.Step.TheVariants.{Poll};
ghost use Rattle.nor_log.specs.declared.line.Said.TheVariants.{Does};
ghost use Rattle.nor_log.specs.Line.{answer_of, asking, count_read, is_identity, is_register};
ghost use Rattle.nor_log.specs.Line.{line_says};
ghost use Rattle.nor_log.specs.Line.{said_by, step_by, text_says};

use crate::bytes::{bytes_of, count_of};
use crate::text::{bare, cut};
use nor_base::{Bytes, Step};
use nor_decode::POLL;
use nor_frames::spread1;
use std::alloc::{AllocError, Global};

/// What is said of the bytes that a transaction reads.
#[derive(Drop)]
pub(crate) enum Answer {
    /// How many they are.
    Any(u32),
    /// What they are.
    Same(Bytes),
}

/// What a line says.
#[derive(Drop)]
pub(crate) enum Said {
    /// It is empty, or a comment.
    Nothing,
    /// A step.
    Does {
        step: Step,
        /// It only reads an identification or a register.
        identity: bool,
    },
    /// Nothing that a log says.
    Strange,
}

/// What a line says, which may have a comment.
pub(crate) fn line_says(alloc: Global, line: &[u8]) -> Result<Said, AllocError>
    ensures { IfOk result (λ said. said ≡ line_says line.now) }
{
    let (text, _comment) = cut(b'#', line);
    text_says(alloc, bare(text))
}

/// What a text without blanks at its ends says.
fn text_says(alloc: Global, text: &[u8]) -> Result<Said, AllocError>
    ensures { IfOk result (λ said. said ≡ text_says text.now) }
{
    if text.is_empty() {
        return Ok(Said::Nothing);
    }
    if text == b"poll".as_slice() {
        return poll(alloc);
    }
    let (sent, answer) = cut(b'>', text);
    let sent = bytes_of(alloc, sent)?;
    let answer = answer_of(alloc, answer)?;
    transaction(alloc, sent, answer)
}

/// The step of `poll`.
fn poll(alloc: Global) -> Result<Said, AllocError>
    ensures { IfOk result (λ said. said ≡ Does (Poll poll_clocks) false) }
{
    let clocks = Bytes::new(Vec::from_slice(alloc, POLL)?);
    Ok(Said::Does {
        step: Step::Poll { clocks },
        identity: false,
    })
}

/// What comes after `>`.
fn answer_of(alloc: Global, text: &[u8]) -> Result<Option<Answer>, AllocError>
    ensures { IfOk result (λ answer. answer ≡ answer_of text.now) }
{
    if let Some(count) = count_of(bare(text)) {
        return Ok(Some(Answer::Any(count)));
    }
    Ok(bytes_of(alloc, text)?.map(Answer::Same))
}

/// A transaction that sends these bytes, which are some.
fn transaction(
    alloc: Global,
    sent: Option<Bytes>,
    answer: Option<Answer>,
) -> Result<Said, AllocError>
    ensures { IfOk result (λ said. said ≡ said_by sent answer) }
{
    let (Some(sent), Some(answer)) = (sent, answer) else {
        return Ok(Said::Strange);
    };
    let sent = sent.as_slice();
    if sent.is_empty() {
        return Ok(Said::Strange);
    }
    let identity = is_identity(sent, count_read(&answer));
    Ok(Said::Does {
        step: step_by(alloc, sent, answer)?,
        identity,
    })
}

/// How many bytes are read.
fn count_read(answer: &Answer) -> usize
    ensures { result ≡ count_read answer.now }
{
    match answer {
        Answer::Any(count) => *count as usize,
        Answer::Same(bytes) => bytes.as_slice().len(),
    }
}

/// Whether a transaction that sends these bytes only reads an identification or a register.
fn is_identity(sent: &[u8], count: usize) -> bool
    ensures { result ≡ is_identity sent.now count }
{
    match sent {
        [op, others @ ..] => is_register(*op, others.len()) && count > 0,
        [] => false,
    }
}

/// Whether such a read has this opcode and this many bytes after it.
fn is_register(op: u8, others: usize) -> bool
    ensures { result ≡ is_register op others }
{
    match op {
        0x9F | 0x15 | 0x35 => others == 0,
        0xAB | 0x90 => others == 3,
        0x5A => others == 3 || others == 4,
        _ => false,
    }
}

/// The step that sends bytes: it compares what is read, where that is said and is some bytes.
fn step_by(alloc: Global, sent: &[u8], answer: Answer) -> Result<Step, AllocError>
    ensures { IfOk result (λ step. step ≡ step_by sent.now answer) }
{
    let clocks = Bytes::new(asking(alloc, sent, count_read(&answer))?);
    Ok(match answer {
        Answer::Same(expect) if !expect.as_slice().is_empty() => Step::Verify { clocks, expect },
        _ => Step::Send { clocks },
    })
}

/// The clocks that send bytes on one lane, and then read some.
fn asking(alloc: Global, sent: &[u8], count: usize) -> Result<Vec<u8>, AllocError>
    ensures { IfOk result (λ clocks. clocks.items ≡ asking sent.now count) }
{
    let front = sent.len().checked_mul(8).ok_or(AllocError)?;
    let back = count.checked_mul(8).ok_or(AllocError)?;
    let whole = front.checked_add(back).ok_or(AllocError)?;
    let mut clocks = Vec::new(alloc);
    clocks.resize(front, b'.')?;
    spread1(sent, clocks.as_mut_slice());
    clocks.resize(whole, b'.')?;
    Ok(clocks)
}
