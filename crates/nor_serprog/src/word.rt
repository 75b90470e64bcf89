//! The first word of a device: NAK and ACK, its answer to 10h and to nothing else.

ghost use Rattle.std.specs.Prelude.{◌≡◌, length};
ghost use Rattle.nor_serprog.specs.Exchange.{CountsReads, CountsWrites};
ghost use Rattle.nor_serprog.specs.Greeting.{Begins, Finds, Hears, HearsLate, Tries, is_word};
ghost use Rattle.nor_base.specs.Wire.{wire};

use crate::exchange::{ACK, NAK};
use crate::fault::{Command, Fault};
use nor_base::{ByteIn, ByteOut, fill_from, put_all};

/// How often the device is asked for it: some boards reset when they are opened, and then miss what
/// comes meanwhile. With a reader that waits two seconds for a byte, a device that never answers
/// takes four.
const TRIES: usize = 2;

/// How many bytes are looked through for it, silences counted: what an earlier use left in a pipe
/// comes before it.
const NOISE: usize = 4096;

/// Asks the device for its first word until it comes, again at each silence, and takes what comes
/// late after it.
pub(crate) fn synchronize<R: ByteIn, W: ByteOut>(from: &mut R, to: &mut W) -> Result<(), Fault>
    ensures word { Begins (wire (W.held to.old) (R.ahead from.old))
        (wire (W.held to.new) (R.ahead from.new))
        result }
    ensures counts { CountsReads (R.count from.old) (R.count from.new) result
        × CountsWrites (W.count to.old) (W.count to.new) result }
{
    let tries = find_word(from, to)?;
    // tries that weren't answered before the next one may be after all
    let mut late = [0; 2 * (TRIES - 1)];
    take_late(from, &mut late[..2 * (tries - 1)])
}

/// Asks until it comes: how often.
fn find_word<R: ByteIn, W: ByteOut>(from: &mut R, to: &mut W) -> Result<usize, Fault>
    ensures word { Finds (wire (W.held to.old) (R.ahead from.old))
        (wire (W.held to.new) (R.ahead from.new))
        result }
    ensures counts { CountsReads (R.count from.old) (R.count from.new) result
        × CountsWrites (W.count to.old) (W.count to.new) result }
{
    put_try(to)?;
    let mut tries = 1;
    let mut last = ACK;
    for _ in 0..NOISE {
        match take_byte(from)? {
            Some(byte) => {
                if ends_word(last, byte) {
                    return Ok(tries);
                }
                last = byte;
            }
            None => {
                if tries == TRIES {
                    return Err(Fault::Silent);
                }
                put_try(to)?;
                tries += 1;
            }
        }
    }
    Err(Fault::Differs)
}

/// Whether two bytes, one right after the other, are the word.
fn ends_word(last: u8, byte: u8) -> bool
    ensures { result ≡ is_word last byte }
{
    last == NAK && byte == ACK
}

/// Asks for it once.
fn put_try<W: ByteOut>(to: &mut W) -> Result<(), Fault>
    ensures tries { Tries (W.held to.old) (W.held to.new) result }
    ensures writes { CountsWrites (W.count to.old) (W.count to.new) result }
{
    match put_all(to, Command::SyncNop.bytes()) {
        Ok(()) => Ok(()),
        Err(_) => Err(Fault::Write),
    }
}

/// The next byte, or none where the device is silent.
fn take_byte<R: ByteIn>(from: &mut R) -> Result<Option<u8>, Fault>
    ensures hears { Hears (R.ahead from.old) (R.ahead from.new) result }
    ensures reads { CountsReads (R.count from.old) (R.count from.new) result }
{
    let mut byte = [0];
    match fill_from(from, &mut byte) {
        Ok(0) => Ok(None),
        Ok(_) => Ok(Some(byte[0])),
        Err(_) => Err(Fault::Read),
    }
}

/// Takes what comes late, as far as the buffer has room.
fn take_late<R: ByteIn>(from: &mut R, late: &mut [u8]) -> Result<(), Fault>
    ensures late { HearsLate (R.ahead from.old) (R.ahead from.new) result (length late.old) }
    ensures reads { CountsReads (R.count from.old) (R.count from.new) result }
{
    match fill_from(from, late) {
        Ok(_) => Ok(()),
        Err(_) => Err(Fault::Read),
    }
}
