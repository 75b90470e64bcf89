//! What a chip's own SFDP tables say of the register that holds its upper address bits (JESD216B,
//! basic table, DWORD 16, Enter 4-Byte Addressing).

ghost use Rattle.std.specs.Prelude.{◌≡◌};
ghost use Rattle.nor_reader.specs.Own.{is_moved, named_by, opcode_of, register_in, register_of};

use nor_sfdp::{SfdpTable, bits, is_set, table};

/// The ID of the basic flash parameter table.
const BASIC: u16 = 0xFF00;

/// The register that holds a chip's address bits from A24 on while its instructions take three
/// address bytes.
#[derive(Clone, Copy, Debug, PartialEq, Eq)]
pub enum AddressRegister {
    /// Bit 26: the extended address register, all of whose bits are address bits.
    Extended,
    /// Bit 27: the bank register, whose bits 6 to 0 are address bits and whose bit 7 is the address
    /// mode.
    Bank,
}

/// The register that a chip's SFDP bytes name: the extended one where they name both.
///
/// `None` where they name neither, and where [`nor_sfdp::table`] finds no basic table or one of
/// fewer than 16 DWORDs.
pub fn address_register(tables: &[u8]) -> Option<AddressRegister>
    ensures { result ≡ register_of tables.now }
{
    match table(tables, BASIC) {
        Ok(Some(basic)) => register_in(&basic),
        _ => None,
    }
}

/// The one that a basic table names, where its DWORD 16 is there.
fn register_in(basic: &SfdpTable<'_>) -> Option<AddressRegister>
    ensures { result ≡ register_in basic.now }
{
    named_by(basic.dword(16)?)
}

/// The one that DWORD 16 names.
fn named_by(dword16: u32) -> Option<AddressRegister>
    ensures { result ≡ named_by dword16 }
{
    if is_set(dword16, 26) {
        Some(AddressRegister::Extended)
    } else if is_set(dword16, 27) {
        Some(AddressRegister::Bank)
    } else {
        None
    }
}

/// The instruction that reads it: C8h, 16h.
pub fn opcode_of(register: AddressRegister) -> u8
    ensures { result ≡ opcode_of register }
{
    match register {
        AddressRegister::Extended => 0xC8,
        AddressRegister::Bank => 0x16,
    }
}

/// Whether some address bit of its value is 1.
pub fn is_moved(register: AddressRegister, value: u8) -> bool
    ensures { result ≡ is_moved register value }
{
    let address_bits = match register {
        AddressRegister::Extended => bits(u32::from(value), 7, 0),
        AddressRegister::Bank => bits(u32::from(value), 6, 0),
    };
    address_bits != 0
}
