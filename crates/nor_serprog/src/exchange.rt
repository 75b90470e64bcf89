//! One command and its answer.

ghost use Rattle.std.specs.Prelude.{◌≡◌, ◌<◌, ◌+◌, ◌^◌, [], length, flat_map, IfOk, IfErr};
ghost use Rattle.nor_serprog.specs.declared.fault.Fault.TheVariants.{Read};
ghost use Rattle.nor_serprog.specs.Exchange.{Fills, Meets, other_byte, TakesAsMany, Compares};
ghost use Rattle.nor_serprog.specs.Exchange.{Answers, AnswersKnown, Asks, CountsReads};
ghost use Rattle.nor_serprog.specs.Exchange.{CountsWrites};
ghost use Rattle.nor_serprog.specs.Follow.{CountsReason};
ghost use Rattle.nor_base.specs.Wire.{wire};

use crate::fault::{Fault, Reason};
use crate::put::put_command;
use nor_base::{ByteIn, ByteOut, fill_from};

/// The answer of a command that was done.
pub(crate) const ACK: u8 = 0x06;

/// The answer of one that was refused.
pub(crate) const NAK: u8 = 0x15;

/// Puts a command, in parts, and takes its answer: ACK, and the bytes that fill a buffer.
pub(crate) fn ask<R: ByteIn, W: ByteOut>(
    from: &mut R,
    to: &mut W,
    command: &[&[u8]],
    got: &mut [u8],
) -> Result<(), Fault>
    ensures asked { Asks (wire (W.held to.old) (R.ahead from.old))
        (wire (W.held to.new) (R.ahead from.new))
        result
        (flat_map (λ part. part.now) command.now)
        (Answers (R.ahead from.old) (R.ahead from.new) result got.new) }
    ensures counts { CountsReads (R.count from.old) (R.count from.new) result
        × CountsWrites (W.count to.old) (W.count to.new) result }
{
    put_command(to, command).map_err(|_| Fault::Write)?;
    told(from, got)
}

/// Takes an answer: ACK, and the bytes that fill a buffer.
pub(crate) fn told<R: ByteIn>(from: &mut R, got: &mut [u8]) -> Result<(), Fault>
    ensures answers { Answers (R.ahead from.old) (R.ahead from.new) result got.new }
    ensures reads { CountsReads (R.count from.old) (R.count from.new) result }
{
    acknowledged(from)?;
    filled(from, got)
}

/// Takes an answer that is to be ACK and these bytes. After ACK as many as these are taken,
/// whatever they are.
pub(crate) fn answered<R: ByteIn>(from: &mut R, want: &[u8]) -> Result<(), Reason>
    requires want { length want.now < 2 ^ 24 }
    ensures known { AnswersKnown (R.ahead from.old) (R.ahead from.new) result want.now }
    ensures reads { CountsReason Read (R.count from.old) (R.count from.new) result }
{
    acknowledged(from)?;
    compared(from, want)
}

/// Takes ACK.
fn acknowledged<R: ByteIn>(from: &mut R) -> Result<(), Fault>
    ensures answers { Answers (R.ahead from.old) (R.ahead from.new) result [] }
    ensures reads { CountsReads (R.count from.old) (R.count from.new) result }
{
    let mut byte = [0];
    filled(from, &mut byte)?;
    match byte[0] {
        ACK => Ok(()),
        NAK => Err(Fault::Nak),
        _ => Err(Fault::Differs),
    }
}

/// Takes bytes until a buffer is full.
fn filled<R: ByteIn>(from: &mut R, got: &mut [u8]) -> Result<(), Fault>
    ensures fills { Fills (R.ahead from.old) (R.ahead from.new) result got.new }
    ensures reads { CountsReads (R.count from.old) (R.count from.new) result }
{
    match fill_from(from, got) {
        Ok(given) if given < got.len() => Err(Fault::Silent),
        Ok(_) => Ok(()),
        Err(_) => Err(Fault::Read),
    }
}

/// Takes as many bytes as are wanted, some hundred at a time, and reports the first that is
/// another.
fn compared<R: ByteIn>(from: &mut R, want: &[u8]) -> Result<(), Reason>
    requires want { length want.now < 2 ^ 24 }
    ensures takes { TakesAsMany (R.ahead from.old) (R.ahead from.new) result want.now }
    ensures reads { CountsReason Read (R.count from.old) (R.count from.new) result }
{
    let mut piece = [0; 256];
    let mut found = Ok(());
    let mut done = 0;
    while done < want.len() {
        let room = (want.len() - done).min(256);
        let got = &mut piece[..room];
        filled(from, got)?;
        found = first_other(found, got, &want[done..done + room], done);
        done += room;
    }
    found
}

/// The first byte that is another: the one that was found before, or else the first of the next
/// piece, which stands at a place.
fn first_other(
    found: Result<(), Reason>,
    got: &[u8],
    want: &[u8],
    start: usize,
) -> Result<(), Reason>
    requires long { length got.now ≡ length want.now }
    requires near { start + length want.now < 2 ^ 24 }
    ensures before { IfErr found (λ _. result ≡ found) }
    ensures first { IfOk found (λ _. Compares got.now want.now start result) }
{
    found?;
    difference(got, want, start)
}

/// Whether bytes are those that are wanted, or the first that is another, its place counted from a
/// start.
fn difference(got: &[u8], want: &[u8], start: usize) -> Result<(), Reason>
    requires long { length got.now ≡ length want.now }
    requires near { start + length want.now < 2 ^ 24 }
    ensures { Compares got.now want.now start result }
{
    for (place, byte) in want.iter().enumerate() {
        if got[place] != *byte {
            return Err(Reason::Differs {
                place: (start + place) as u32,
                byte: got[place],
            });
        }
    }
    Ok(())
}

/// Puts a command, in parts, and takes an answer that is to be just these bytes.
pub(crate) fn exchange<R: ByteIn, W: ByteOut>(
    from: &mut R,
    to: &mut W,
    command: &[&[u8]],
    want: &[u8],
) -> Result<(), Fault>
    ensures asked { Asks (wire (W.held to.old) (R.ahead from.old))
        (wire (W.held to.new) (R.ahead from.new))
        result
        (flat_map (λ part. part.now) command.now)
        (Meets (R.ahead from.old) (R.ahead from.new) result want.now) }
    ensures counts { CountsReads (R.count from.old) (R.count from.new) result
        × CountsWrites (W.count to.old) (W.count to.new) result }
{
    put_command(to, command).map_err(|_| Fault::Write)?;
    expect(from, want)
}

/// Takes bytes as long as they are those that are wanted.
fn expect<R: ByteIn>(from: &mut R, want: &[u8]) -> Result<(), Fault>
    ensures meets { Meets (R.ahead from.old) (R.ahead from.new) result want.now }
    ensures reads { CountsReads (R.count from.old) (R.count from.new) result }
{
    let mut got = [0];
    for (place, byte) in want.iter().enumerate() {
        filled(from, &mut got)?;
        if got[0] != *byte {
            return Err(other_byte(place, got[0]));
        }
    }
    Ok(())
}

/// What another byte than one that was wanted is.
fn other_byte(place: usize, byte: u8) -> Fault
    ensures { result ≡ other_byte place byte }
{
    if place == 0 && byte == NAK {
        Fault::Nak
    } else {
        Fault::Differs
    }
}
