//! The address mode that was said, and whether the chip is sure to be in it (JESD216B, basic table,
//! DWORDs 1 and 16; W25Q256JV datasheet, B7h, E9h and ADS).

ghost use Rattle.std.specs.Prelude.{◌≡◌, [], IfOk, IfErr};
ghost use Rattle.nor_base.specs.Instructions.{is_there};
ghost use Rattle.nor_base.specs.declared.meaning.Part.TheVariants.{Generic};
ghost use Rattle.nor_reader.specs.Switched.{Operates};
ghost use Rattle.nor_reader.specs.Telling.{opcode_to};
ghost use Rattle.nor_sfdp.specs.Reading.{meaning_of};
ghost use Rattle.nor_base.specs.Wire.{wire};
ghost use Rattle.norprog_read.specs.Modes.{has_three, is_otherwise, is_sure, mode_ops, modes_of};
ghost use Rattle.norprog_read.specs.Modes.{own_modes, said_modes, sheet_modes, shows_mode};
ghost use Rattle.norprog_read.specs.Modes.{switch_to, MakesMode, StopsMode};
ghost use Rattle.norprog_read.specs.Way.{has_both};

use crate::asked::{Ask, Known};
use crate::chip::ask_status;
use crate::fault::{Unlike, Unread};
use nor_base::{ByteIn, ByteOut, Meaning, Part, Switch, Width};
use nor_reader::{ENTER, LEAVE, switch_mode};
use nor_serprog::Fault;

/// What is known of a chip's address modes.
#[derive(Clone, Copy)]
pub(crate) struct Modes {
    /// The one that is said is its only one.
    pub(crate) one: bool,
    /// How four-byte mode is entered.
    pub(crate) enter: Switch,
    /// How it is left.
    pub(crate) leave: Switch,
}

/// What is known of the address modes of a chip of this meaning, from which these tables came.
pub(crate) fn modes_of(known: Known<'_>, tables: &[u8], meaning: &Meaning) -> Modes
    ensures { result ≡ modes_of known.entry tables.now meaning.now }
{
    match known {
        Known::Uniform(_) => own_modes(tables),
        Known::Sheet(_) => sheet_modes(tables, meaning),
        Known::Own | Known::Tables(_) => said_modes(meaning),
    }
}

/// What is known of them by the meaning of a sheet, and by the tables where that says three address
/// bytes.
fn sheet_modes(tables: &[u8], meaning: &Meaning) -> Modes
    ensures { result ≡ sheet_modes (meaning_of tables.now [] Generic) meaning.now }
{
    if has_three(meaning.width) {
        own_modes(tables)
    } else {
        said_modes(meaning)
    }
}

/// What a meaning says of them.
fn said_modes(meaning: &Meaning) -> Modes
    ensures { result ≡ said_modes meaning.now }
{
    Modes {
        one: !has_both(meaning.width),
        enter: meaning.enter,
        leave: meaning.leave,
    }
}

/// What the tables of a chip say of them that is known by its size or by a sheet of one mode.
fn own_modes(tables: &[u8]) -> Modes
    ensures { result ≡ own_modes (meaning_of tables.now [] Generic) }
{
    match nor_sfdp::read(tables, "", Part::Generic) {
        Ok(own) => Modes {
            one: has_three(own.width),
            enter: own.enter,
            leave: own.leave,
        },
        Err(_) => Modes {
            one: false,
            enter: Switch::Absent,
            leave: Switch::Absent,
        },
    }
}

/// Whether a chip of this width takes three address bytes in any case.
fn has_three(width: Width) -> bool
    ensures { result ≡ has_three width }
{
    match width {
        Width::Three => true,
        Width::Both | Width::Four => false,
    }
}

/// Whether a chip of this width has both address modes.
pub(crate) fn has_both(width: Width) -> bool
    ensures { result ≡ has_both width }
{
    match width {
        Width::Both => true,
        Width::Three | Width::Four => false,
    }
}

/// Whether the chip is sure to be in the mode that was said, once it was made.
pub(crate) fn is_sure(ask: &Ask<'_>, said: bool, modes: Modes) -> bool
    ensures { result ≡ is_sure ask.now said modes }
{
    ask.fresh || modes.one || shows_mode(ask.part) || is_there(switch_to(ask.content, said, modes))
}

/// How a chip whose content is wanted gets into the mode that is said.
fn switch_to(wanted: bool, said: bool, modes: Modes) -> Switch
    ensures { result ≡ switch_to wanted said modes }
{
    if wanted {
        if said { modes.enter } else { modes.leave }
    } else {
        Switch::Absent
    }
}

/// Whether there is a way to switch so.
pub(crate) fn is_there(switch: Switch) -> bool
    ensures { result ≡ is_there switch }
{
    match switch {
        Switch::Absent => false,
        Switch::Plain | Switch::Latched => true,
    }
}

/// Whether the status of a part shows its address mode.
fn shows_mode(part: Part) -> bool
    ensures { result ≡ shows_mode part }
{
    match part {
        Part::Generic => false,
        Part::W25q256jv => true,
    }
}

/// Whether S16 (ADS) of a part that is known to have it says another address mode.
fn is_otherwise(part: Part, mode4: bool, status: u32) -> bool
    ensures { result ≡ is_otherwise part mode4 status }
{
    match part {
        Part::Generic => false,
        Part::W25q256jv => (status / 65536 % 2 == 1) != mode4,
    }
}

/// Puts a chip of this status whose content is wanted into the mode that is said, where there is a
/// way; of a part whose status shows the mode only where it shows the other one. Returns its status
/// then, which shows no other mode.
pub(crate) fn make_mode<R: ByteIn, W: ByteOut>(
    from: &mut R,
    to: &mut W,
    ask: &Ask<'_>,
    said: bool,
    modes: Modes,
    status: u32,
) -> Result<u32, Unread>
    ensures made { IfOk result (MakesMode (wire (W.held to.old) (R.ahead from.old))
        (wire (W.held to.new) (R.ahead from.new)) ask.now (mode_ops ask.now.content said modes)
        status) }
    ensures stops { IfErr result (StopsMode (wire (W.held to.old) (R.ahead from.old))
        (wire (W.held to.new) (R.ahead from.new)) ask.now (mode_ops ask.now.content said modes)) }
{
    let shows = shows_mode(ask.part);
    if shows && !is_otherwise(ask.part, ask.mode4, status) {
        return Ok(status);
    }
    if let Err(why) = send_switch(from, to, ask.content, said, modes) {
        return Err(Unread::Unlike(Unlike::Asking(why)));
    }
    if !shows {
        return Ok(status);
    }
    let after = ask_status(from, to, ask)?;
    if is_otherwise(ask.part, ask.mode4, after) {
        return Err(Unread::Unlike(Unlike::Mode(after)));
    }
    Ok(after)
}

/// Sends what puts it into that mode.
fn send_switch<R: ByteIn, W: ByteOut>(
    from: &mut R,
    to: &mut W,
    wanted: bool,
    said: bool,
    modes: Modes,
) -> Result<(), Fault>
    ensures sends { Operates (wire (W.held to.old) (R.ahead from.old))
        (wire (W.held to.new) (R.ahead from.new))
        result (mode_ops wanted said modes) }
{
    let opcode = opcode_to(said);
    switch_mode(from, to, switch_to(wanted, said, modes), opcode)
}

/// The opcode that makes a mode.
fn opcode_to(mode4: bool) -> u8
    ensures { result ≡ opcode_to mode4 }
{
    if mode4 { ENTER } else { LEAVE }
}
