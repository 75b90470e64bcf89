//! What a chip says of its size, and whether a register of it moves all addresses (JESD216B, basic
//! table, DWORDs 2 and 16; JEDEC, Read Identification 9Fh).

ghost use Rattle.std.specs.Prelude.{◌≡◌, None, IfOk, IfErr};
ghost use Rattle.nor_base.specs.Wire.{wire};
ghost use Rattle.norprog_read.specs.Size.{asked_register, noted_size, other_size, said_size};
ghost use Rattle.norprog_read.specs.Size.{size_by, IsUnmoved, StopsMoved, TellsSize};

use crate::asked::{Ask, Known};
use crate::fault::{Unlike, Unread};
use nor_base::{ByteIn, ByteOut, Meaning};
use nor_reader::{AddressRegister, address_register, is_moved, opcode_of, read_register};
use nor_sfdp::density;

/// Refuses a chip of a size or a sheet whose tables say another size, unless any is allowed.
pub(crate) fn see_size(ask: &Ask<'_>, meaning: &Meaning, tables: &[u8]) -> Result<(), Unread>
    ensures same { IfOk result (λ _. other_size ask.now meaning.now tables.now ≡ None) }
    ensures other { IfErr result (TellsSize (other_size ask.now meaning.now tables.now)) }
{
    match other_size(ask, meaning, tables) {
        None => Ok(()),
        Some(size) => Err(Unread::Unlike(Unlike::Size(size))),
    }
}

/// The size that is said of a chip, itself or in its sheet.
pub(crate) fn said_size(known: Known<'_>, meaning: &Meaning) -> Option<u32>
    ensures { result ≡ said_size known.entry meaning.now }
{
    match known {
        Known::Own | Known::Tables(_) => None,
        Known::Uniform(size) => Some(size),
        Known::Sheet(_) => Some(meaning.size),
    }
}

/// The size that the tables of such a chip say, where it is another one and none is allowed.
fn other_size(ask: &Ask<'_>, meaning: &Meaning, tables: &[u8]) -> Option<u32>
    ensures { result ≡ other_size ask.now meaning.now tables.now }
{
    match said_size(ask.known, meaning) {
        None => None,
        Some(size) => {
            if ask.any_size {
                return None;
            }
            match density(tables) {
                Ok(own) if own != size => Some(own),
                _ => None,
            }
        }
    }
}

/// The register that moves all addresses of a chip whose content is wanted, where its tables name
/// one.
pub(crate) fn asked_register(wanted: bool, tables: &[u8]) -> Option<AddressRegister>
    ensures { result ≡ asked_register wanted tables.now }
{
    if wanted {
        address_register(tables)
    } else {
        None
    }
}

/// Reads that register, and refuses a chip whose addresses it moves.
pub(crate) fn see_register<R: ByteIn, W: ByteOut>(
    from: &mut R,
    to: &mut W,
    register: Option<AddressRegister>,
) -> Result<(), Unread>
    ensures unmoved { IfOk result (λ _. IsUnmoved (wire (W.held to.old) (R.ahead from.old))
        (wire (W.held to.new) (R.ahead from.new)) register) }
    ensures stops { IfErr result (StopsMoved (wire (W.held to.old) (R.ahead from.old))
        (wire (W.held to.new) (R.ahead from.new)) register) }
{
    match register {
        None => Ok(()),
        Some(register) => match read_register(from, to, opcode_of(register)) {
            Ok(value) if is_moved(register, value) => Err(Unread::Unlike(Unlike::Moved(value))),
            Ok(_) => Ok(()),
            Err(why) => Err(Unread::Unlike(Unlike::Asking(why))),
        },
    }
}

/// The size that an identification says, where the size was said and is another one.
pub(crate) fn noted_size(said: Option<u32>, id: [u8; 3]) -> Option<u32>
    ensures { result ≡ noted_size said id }
{
    match said {
        None => None,
        Some(size) => {
            let [_, _, exponent] = id;
            match size_by(exponent) {
                Some(own) if own != size => Some(own),
                _ => None,
            }
        }
    }
}

/// The bytes that are usual for the third byte of an identification: a power of two from 64 KiB to
/// 64 MiB.
fn size_by(exponent: u8) -> Option<u32>
    ensures { result ≡ size_by exponent }
{
    if exponent >= 0x10 && exponent <= 0x1A {
        Some(1 << exponent)
    } else {
        None
    }
}
