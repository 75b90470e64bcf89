//! The instruction table (W25Q256JV datasheet, "Instruction Set Table"; JESD216B for what is a
//! chip's own).

ghost use Rattle.std.specs.Prelude.{◌≡◌, ◌≤◌, ◌==◌, ◌&&◌, [], ◌∷◌, find, is_some, true};
ghost use Rattle.nor_base.specs.Instructions.{row, by_mode, row_of, common_rows, quad_read_row};
ghost use Rattle.nor_base.specs.Instructions.{erase_rows};
ghost use Rattle.nor_decode.specs.Table.{rows_by};

use nor_base::{Erase, Meaning, Switch, What};
use std::marker::Model;

/// A row that a chip offers.
#[derive(Drop)]
pub(crate) struct Row {
    /// The first byte.
    pub(crate) opcode: u8,
    /// The instruction.
    pub(crate) what: What,
    /// Address bytes: 0, 3 or 4.
    pub(crate) width: u8,
    /// Clocks between address and data.
    pub(crate) dummies: u8,
}

impl Model for Row {
    ghost use Rattle.std.specs.Prelude.{◌≤◌, true};
    ghost use Rattle.nor_base.specs.Instructions.{Row};

    ghost Value = { Row };

    ghost view = { λ r. record {
      opcode = r.opcode;
      offered = true;
      what = r.what;
      width = r.width;
      dummies = r.dummies;
    } };

    ghost invariant = { λ r. r.width ≤ 4 };
}

/// The row of an opcode, where the chip offers one.
pub(crate) fn row_of(opcode: u8, meaning: &Meaning, mode4: bool) -> Option<Row>
    ensures { result ≡ row_of meaning.now mode4 opcode }
{
    common_row(opcode, meaning, mode4)
        .or_else(|| quad_read_row(opcode, meaning, mode4))
        .or_else(|| erase_row(opcode, meaning, mode4, 1))
        .or_else(|| erase_row(opcode, meaning, mode4, 2))
        .or_else(|| erase_row(opcode, meaning, mode4, 3))
        .or_else(|| erase_row(opcode, meaning, mode4, 4))
}

/// The row of an opcode that is the same on every chip.
fn common_row(opcode: u8, meaning: &Meaning, mode4: bool) -> Option<Row>
    ensures { result ≡ find (λ r. (opcode == r.opcode) && r.offered)
        (common_rows meaning.now mode4) }
{
    match opcode {
        0x06 => Some(plain(opcode, What::Enable, 0)),
        0x04 => Some(plain(opcode, What::Disable, 0)),
        0x05 => Some(plain(opcode, What::Status, 0)),
        0xB7 if meaning.enter != Switch::Absent => Some(plain(opcode, What::Enter, 0)),
        0xE9 if meaning.leave != Switch::Absent => Some(plain(opcode, What::Leave, 0)),
        0x02 => Some(plain(opcode, What::Program, by_mode(mode4))),
        0x12 if meaning.program4 => Some(plain(opcode, What::Program, 4)),
        0x32 if meaning.quad3 => Some(plain(opcode, What::QuadProgram, by_mode(mode4))),
        0x34 if meaning.quad4 => Some(plain(opcode, What::QuadProgram, 4)),
        0x03 => Some(plain(opcode, What::Read, by_mode(mode4))),
        0x13 if meaning.read4 => Some(plain(opcode, What::Read, 4)),
        0x6C if meaning.quad_read4 => match meaning.quad_read {
            Some(quad_read) => Some(Row {
                opcode,
                what: What::QuadRead,
                width: 4,
                dummies: quad_read.dummies,
            }),
            None => None,
        },
        _ => None,
    }
}

/// A row without dummy clocks.
fn plain(opcode: u8, what: What, width: u8) -> Row
    requires { width ≤ 4 }
    ensures { result ≡ row opcode true what width }
{
    Row {
        opcode,
        what,
        width,
        dummies: 0,
    }
}

/// The address bytes of the legacy opcodes.
fn by_mode(mode4: bool) -> u8
    ensures { result ≡ by_mode mode4 }
{
    if mode4 { 4 } else { 3 }
}

/// The row of the 1-1-4 fast read by the chip's own opcode.
fn quad_read_row(opcode: u8, meaning: &Meaning, mode4: bool) -> Option<Row>
    ensures { result ≡ find (λ r. (opcode == r.opcode) && r.offered)
        (quad_read_row meaning.now mode4 ∷ []) }
{
    match meaning.quad_read {
        Some(quad_read) if quad_read.op == opcode => {
            Some(Row {
                opcode,
                what: What::QuadRead,
                width: by_mode(mode4),
                dummies: quad_read.dummies,
            })
        }
        _ => None,
    }
}

/// The row of an erase kind, by its legacy or its dedicated opcode, where some region allows it.
fn erase_row(opcode: u8, meaning: &Meaning, mode4: bool, kind: u8) -> Option<Row>
    ensures { result ≡ find (λ r. (opcode == r.opcode) && r.offered)
        (erase_rows meaning.now mode4 kind) }
{
    let row = row_of_kind(opcode, meaning.erase_kind(kind), mode4, kind)?;
    if meaning.is_allowed(kind) {
        Some(row)
    } else {
        None
    }
}

/// The row of an erase kind, were it live.
fn row_of_kind(opcode: u8, erase: Option<Erase>, mode4: bool, kind: u8) -> Option<Row>
    ensures { result ≡ find (λ r. (opcode == r.opcode) && r.offered)
        (rows_by (is_some erase) erase mode4 kind) }
{
    let erase = erase?;
    let what = What::Erase(kind);
    if opcode == erase.op {
        Some(plain(opcode, what, by_mode(mode4)))
    } else if erase.op4 == Some(opcode) {
        Some(plain(opcode, what, 4))
    } else {
        None
    }
}
