//! What the chip behind a device is asked before the steps.

ghost use Rattle.std.specs.Prelude.{◌≡◌, ◌<◌, ◌*◌, ◌^◌, false, length, MatchResult};
ghost use Rattle.nor_base.specs.Wire.{wire};
ghost use Rattle.nor_cells.specs.Marks.{IsMarked};
ghost use Rattle.norprog_player.specs.Asked.{BeginsWith, IsIdentified, IsSuited, IsUnknown};
ghost use Rattle.norprog_player.specs.Asked.{IsUnmoved, StopsAsking, StopsMoved, inquiry};
ghost use Rattle.norprog_player.specs.Compared.{comparison};
ghost use Rattle.norprog_player.specs.Expected.{expectation_of};

use crate::access::Access;
use crate::content::compare_whole;
use crate::course::Course;
use crate::ending::Unlike;
use crate::expected::Expected;
use nor_base::{ByteIn, ByteOut, Part};
use nor_reader::{
    AddressRegister, address_register, chip_status, compare_tables, is_moved, opcode_of,
    read_register, suits,
};
use nor_serprog::{Limits, Reason};

/// What comes before the steps: unless it is trusted, the chip is asked for its status until it is
/// idle, its SFDP bytes are compared with those that it has to have, its address register is read,
/// and its marked cells are compared with what it is to hold.
pub(crate) fn begin<R: ByteIn, W: ByteOut>(
    from: &mut R,
    to: &mut W,
    limits: &Limits,
    course: &Course<'_>,
    access: Access,
    marks: &[bool],
) -> Result<(), Unlike>
    requires marked { (length course.now.content.now < 2 ^ 32)
        × (length course.now.content.now ≡ 256 * length marks.now) }
    ensures { MatchResult result
        (λ _. BeginsWith course.now.expected.trusted
        (inquiry (expectation_of course.now.expected) limits.now course.now.turns)
        (comparison limits.now access course.now.content.now (IsMarked marks.now))
        (wire (W.held to.old) (R.ahead from.old)) (wire (W.held to.new) (R.ahead from.new)))
        (λ why. (course.now.expected.trusted ≡ false) × IsUnknown
        (inquiry (expectation_of course.now.expected) limits.now course.now.turns)
        (comparison limits.now access course.now.content.now (IsMarked marks.now))
        (wire (W.held to.old) (R.ahead from.old)) (wire (W.held to.new) (R.ahead from.new)) why) }
{
    if course.expected.trusted {
        return Ok(());
    }
    identify(from, to, limits, course.expected, course.turns)?;
    match compare_whole(from, to, limits, access, course.content, marks) {
        Ok(()) => Ok(()),
        Err(why) => Err(Unlike::Content(why)),
    }
}

/// Asks the chip for its status until it is idle, compares its SFDP bytes with those that it has to
/// have, and asks for the register that moves all addresses.
fn identify<R: ByteIn, W: ByteOut>(
    from: &mut R,
    to: &mut W,
    limits: &Limits,
    expected: Expected<'_>,
    turns: u64,
) -> Result<(), Unlike>
    ensures { MatchResult result
        (λ _. IsIdentified (inquiry (expectation_of expected.entry) limits.now turns)
        (wire (W.held to.old) (R.ahead from.old)) (wire (W.held to.new) (R.ahead from.new)))
        (StopsAsking (inquiry (expectation_of expected.entry) limits.now turns)
        (wire (W.held to.old) (R.ahead from.old)) (wire (W.held to.new) (R.ahead from.new))) }
{
    ask_status(from, to, expected, turns)?;
    if let Err(why) = compare_tables(from, to, limits, expected.tables) {
        return Err(Unlike::Tables(why));
    }
    ask_register(from, to, address_register(expected.tables))
}

/// Asks the chip for its status until it is idle.
fn ask_status<R: ByteIn, W: ByteOut>(
    from: &mut R,
    to: &mut W,
    expected: Expected<'_>,
    turns: u64,
) -> Result<(), Unlike>
    ensures { (limits : Limits) → MatchResult result
        (λ _. IsSuited (inquiry (expectation_of expected.entry) limits turns)
        (wire (W.held to.old) (R.ahead from.old)) (wire (W.held to.new) (R.ahead from.new)))
        (StopsAsking (inquiry (expectation_of expected.entry) limits turns)
        (wire (W.held to.old) (R.ahead from.old)) (wire (W.held to.new) (R.ahead from.new))) }
{
    match chip_status(from, to, expected.part, turns) {
        Ok(status) if suits(expected.part, expected.start, status) => Ok(()),
        Ok(status) => match expected.part {
            Part::Generic => Err(Unlike::Status(status)),
            Part::W25q256jv => Err(Unlike::Registers(status)),
        },
        Err(Reason::Exchange(fault)) => Err(Unlike::Asking(fault)),
        Err(Reason::Busy) => Err(Unlike::Busy),
        Err(Reason::Differs { .. } | Reason::Carried) => unreachable!("any byte is a status"),
    }
}

/// Reads the register that moves all addresses, where the tables name one, and refuses a chip whose
/// addresses it moves.
fn ask_register<R: ByteIn, W: ByteOut>(
    from: &mut R,
    to: &mut W,
    named: Option<AddressRegister>,
) -> Result<(), Unlike>
    ensures { MatchResult result
        (λ _. IsUnmoved named (wire (W.held to.old) (R.ahead from.old))
        (wire (W.held to.new) (R.ahead from.new)))
        (StopsMoved named (wire (W.held to.old) (R.ahead from.old))
        (wire (W.held to.new) (R.ahead from.new))) }
{
    let Some(register) = named else {
        return Ok(());
    };
    match read_register(from, to, opcode_of(register)) {
        Ok(value) if is_moved(register, value) => Err(Unlike::Moved(value)),
        Ok(_) => Ok(()),
        Err(why) => Err(Unlike::Asking(why)),
    }
}
