//! Numbers and bytes in lower-case hexadecimal digits.

ghost use Rattle.std.specs.Prelude.{◌≡◌, ◌<◌, ◌/◌, true, length, flat_map, IfErr};
ghost use Rattle.std.specs.Prelude.{OnOk};
ghost use Rattle.nor_base.specs.Device.{Writes, Counts};
ghost use Rattle.nor_base.specs.Script.{hex_digit, hex_pair};
ghost use Rattle.nor_script.specs.declared.fault.ScriptFault.TheVariants.{Memory};
ghost use Rattle.nor_script.specs.Hexadecimal.{hex_number};
ghost use Rattle.nor_script.specs.Line.{is_lower_digit, are_pairs};
ghost use Rattle.nor_script.specs.Parts.{SpellsBytes};

use crate::fault::ScriptFault;
use nor_base::{ByteOut, Failed, put_all};

/// How many bytes' digits go out at a time.
const PART: usize = 128;

/// A byte in two lower-case hexadecimal digits.
pub fn hex_pair(byte: u8) -> [u8; 2]
    ensures { result ≡ hex_pair byte }
{
    let mut digits = [0; 2];
    let _ = hex::encode_to_slice(&[byte], &mut digits);
    digits
}

/// A number in eight lower-case hexadecimal digits, those of its highest byte first.
#[tactic(auto, unfolding(crate::specs::Hexadecimal::hex_number))]
pub fn hex_number(number: u32) -> [u8; 8]
    ensures { result ≡ hex_number number }
{
    let mut digits = [0; 8];
    let _ = hex::encode_to_slice(&number.to_be_bytes(), &mut digits);
    digits
}

/// Puts two lower-case digits for each byte.
///
/// At `Failed` a proper prefix of them was taken; it comes only from the writer, whose count of
/// failures rose by one.
pub fn put_hexadecimal<W: ByteOut>(bytes: &[u8], out: &mut W) -> Result<(), Failed>
    ensures bytes { Writes (W.held out.old) (W.held out.new) result (flat_map hex_pair bytes.now) }
    ensures count { Counts (W.count out.old) (W.count out.new) result }
{
    let mut digits = [0; 2 * PART];
    let mut done = 0;
    while done < bytes.len() {
        let count = (bytes.len() - done).min(PART);
        let digits = &mut digits[..2 * count];
        let _ = hex::encode_to_slice(&bytes[done..done + count], digits);
        put_all(out, digits)?;
        done += count;
    }
    Ok(())
}

/// The bytes that pairs of lower-case digits spell, in a buffer that is used again; `Memory` where
/// a growth is refused.
pub(crate) fn decode(digits: &[u8], bytes: &mut Vec<u8>) -> Result<(), ScriptFault>
    requires { are_pairs digits.now ≡ true }
    ensures read { OnOk result (SpellsBytes digits.now bytes.new.items) }
    ensures refused { IfErr result (λ fault. fault ≡ Memory) }
{
    bytes.resize(digits.len() / 2, 0)?;
    decode_pairs(digits, bytes.as_mut_slice());
    Ok(())
}

/// Puts the bytes that pairs of lower-case digits spell.
fn decode_pairs(digits: &[u8], bytes: &mut [u8])
    requires pairs { are_pairs digits.now ≡ true }
    requires room { length bytes.old ≡ length digits.now / 2 }
    ensures { SpellsBytes digits.now bytes.new }
{
    for i in 0..bytes.len() {
        bytes[i] = 16 * digit_value(digits[2 * i]) + digit_value(digits[2 * i + 1]);
    }
}

/// The value of a lower-case digit.
// without a branch: digits come in no order that a processor can learn
fn digit_value(digit: u8) -> u8
    requires { is_lower_digit digit ≡ true }
    ensures small { result < 16 }
    ensures value { hex_digit result ≡ digit }
{
    digit % 16 + 9 * (digit / 64)
}
