//! The handshake with a device.

ghost use Rattle.std.specs.Prelude.{◌≡◌, ◌<◌, ◌^◌, ℕ, List, Option};
ghost use Rattle.nor_base.specs.Device.{Ahead};
ghost use Rattle.nor_serprog.specs.Greeting.{Greeted, HasLearnt, Learns, BeginsGreeting, Tells};
ghost use Rattle.nor_serprog.specs.Greeting.{TellsAhead, TellsIf, CountsGreetReads};
ghost use Rattle.nor_serprog.specs.Greeting.{CountsGreetWrites, offers, most};
ghost use Rattle.nor_base.specs.Wire.{wire};

use crate::exchange::ask;
use crate::fault::{Command, Fault, GreetFault};
use crate::limits::Limits;
use crate::word::synchronize;
use nor_base::{ByteIn, ByteOut};

/// The command of an SPI operation.
const O_SPIOP: u8 = 0x13;

/// The commands that are asked only of a device that offers them.
const Q_SERBUF: u8 = 0x04;

const Q_WRNMAXLEN: u8 = 0x08;

const Q_RDNMAXLEN: u8 = 0x11;

const S_PIN_STATE: u8 = 0x15;

/// The most bytes of an operation, where the device doesn't tell: what its request has room for.
const MOST: u32 = (1 << 24) - 1;

/// Begins with a device (docs/FORMATS.md, section 14), and returns what it can do. A reader that
/// waits for bytes has to end where the device is silent.
///
/// `Command` has the first command whose exchange ended early, and how; `Version` where it isn't 1;
/// `NoOperation` where 13h isn't offered. A most that isn't said, or is 0, is 2^24 - 1.
pub fn greet<R: ByteIn, W: ByteOut>(from: &mut R, to: &mut W) -> Result<Limits, GreetFault>
    ensures greeted { Greeted (wire (W.held to.old) (R.ahead from.old))
        (wire (W.held to.new) (R.ahead from.new))
        result }
    ensures counts { CountsGreetReads (R.count from.old) (R.count from.new) result
        × CountsGreetWrites (W.count to.old) (W.count to.new) result }
{
    let commands = learn(from, to)?;
    go_on(from, to, &commands)
}

/// Begins with a device that speaks version 1 and does SPI operations: the commands that it offers.
fn learn<R: ByteIn, W: ByteOut>(from: &mut R, to: &mut W) -> Result<[u8; 32], GreetFault>
    ensures learns { Learns (wire (W.held to.old) (R.ahead from.old))
        (wire (W.held to.new) (R.ahead from.new))
        result }
    ensures counts { CountsGreetReads (R.count from.old) (R.count from.new) result
        × CountsGreetWrites (W.count to.old) (W.count to.new) result }
{
    begin(from, to)?;
    let mut version = [0; 2];
    tell(from, to, Command::QueryInterface, &mut version)?;
    if version != [1, 0] {
        return Err(GreetFault::Version);
    }
    let mut commands = [0; 32];
    tell(from, to, Command::QueryCommands, &mut commands)?;
    if !offers(&commands, O_SPIOP) {
        return Err(GreetFault::NoOperation);
    }
    Ok(commands)
}

/// Goes on with a device that offers these commands: how much it can do in one operation.
fn go_on<R: ByteIn, W: ByteOut>(
    from: &mut R,
    to: &mut W,
    commands: &[u8; 32],
) -> Result<Limits, GreetFault>
    ensures greeted { (held : Option (List ℕ)) (ahead : Ahead)
        → HasLearnt (wire held ahead) (wire (W.held to.old) (R.ahead from.old)) commands.now
        → Greeted (wire held ahead) (wire (W.held to.new) (R.ahead from.new)) result }
    ensures counts { CountsGreetReads (R.count from.old) (R.count from.new) result
        × CountsGreetWrites (W.count to.old) (W.count to.new) result }
{
    tell(from, to, Command::SetBus, &mut [])?;
    let ahead = takes_ahead(from, to, offers(commands, Q_SERBUF))?;
    let mut sends = [0; 3];
    let has_sends = offers(commands, Q_WRNMAXLEN);
    tell_if(from, to, has_sends, Command::QueryWriteMax, &mut sends)?;
    let mut gives = [0; 3];
    let has_gives = offers(commands, Q_RDNMAXLEN);
    tell_if(from, to, has_gives, Command::QueryReadMax, &mut gives)?;
    let has_pins = offers(commands, S_PIN_STATE);
    tell_if(from, to, has_pins, Command::SetPins, &mut [])?;
    Ok(Limits {
        sent: most(has_sends, &sends),
        asked: most(has_gives, &gives),
        ahead,
        pins: has_pins,
    })
}

/// Has the device say its first word.
fn begin<R: ByteIn, W: ByteOut>(from: &mut R, to: &mut W) -> Result<(), GreetFault>
    ensures begins { BeginsGreeting (wire (W.held to.old) (R.ahead from.old))
        (wire (W.held to.new) (R.ahead from.new)) result }
    ensures counts { CountsGreetReads (R.count from.old) (R.count from.new) result
        × CountsGreetWrites (W.count to.old) (W.count to.new) result }
{
    let at = Command::SyncNop;
    match synchronize(from, to) {
        Ok(()) => Ok(()),
        Err(why) => Err(GreetFault::Command { at, why }),
    }
}

/// Does a command, whose answer fills a buffer.
fn tell<R: ByteIn, W: ByteOut>(
    from: &mut R,
    to: &mut W,
    at: Command,
    got: &mut [u8],
) -> Result<(), GreetFault>
    ensures tells { Tells (wire (W.held to.old) (R.ahead from.old))
        (wire (W.held to.new) (R.ahead from.new))
        result at got.new }
    ensures counts { CountsGreetReads (R.count from.old) (R.count from.new) result
        × CountsGreetWrites (W.count to.old) (W.count to.new) result }
{
    match ask(from, to, &[at.bytes()], got) {
        Ok(()) => Ok(()),
        Err(why) => Err(GreetFault::Command { at, why }),
    }
}

/// How many bytes the device takes before it answers: 0 where it isn't asked, or answers NAK.
fn takes_ahead<R: ByteIn, W: ByteOut>(
    from: &mut R,
    to: &mut W,
    offered: bool,
) -> Result<u16, GreetFault>
    ensures tells { TellsAhead offered (wire (W.held to.old) (R.ahead from.old))
        (wire (W.held to.new) (R.ahead from.new)) result }
    ensures counts { CountsGreetReads (R.count from.old) (R.count from.new) result
        × CountsGreetWrites (W.count to.old) (W.count to.new) result }
{
    if !offered {
        return Ok(0);
    }
    let at = Command::QueryBuffer;
    let mut told = [0; 2];
    match ask(from, to, &[at.bytes()], &mut told) {
        Ok(()) => Ok(u16::from_le_bytes(told)),
        Err(Fault::Nak) => Ok(0),
        Err(why) => Err(GreetFault::Command { at, why }),
    }
}

/// Does a command where it is offered.
fn tell_if<R: ByteIn, W: ByteOut>(
    from: &mut R,
    to: &mut W,
    offered: bool,
    at: Command,
    got: &mut [u8],
) -> Result<(), GreetFault>
    ensures tells { TellsIf offered (wire (W.held to.old) (R.ahead from.old))
        (wire (W.held to.new) (R.ahead from.new)) result at got.new }
    ensures counts { CountsGreetReads (R.count from.old) (R.count from.new) result
        × CountsGreetWrites (W.count to.old) (W.count to.new) result }
{
    if offered {
        tell(from, to, at, got)
    } else {
        Ok(())
    }
}

/// Whether the device offers a command: its bit, the lowest of each byte the first.
fn offers(commands: &[u8; 32], command: u8) -> bool
    ensures { result ≡ offers commands.now command }
{
    commands[usize::from(command / 8)] >> (command % 8) & 1 == 1
}

/// The most bytes of an operation, by what a device tells: 0 stands for 2^24, of which a request
/// has room for one less.
fn most(offered: bool, told: &[u8; 3]) -> u32
    ensures most { result ≡ most offered told.now }
    ensures some { 0 < result }
    ensures few { result < 2 ^ 24 }
{
    let [low, middle, high] = *told;
    let number = u32::from_le_bytes([low, middle, high, 0]);
    if offered && number != 0 { number } else { MOST }
}
