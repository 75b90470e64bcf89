//! The SFDP tables of the chip behind a device (JESD216: Read SFDP 5Ah; the header and the
//! parameter headers).

ghost use Rattle.std.specs.Prelude.{◌≡◌, ◌≤◌, ◌<◌, ◌+◌, ◌*◌, ◌^◌, length};
ghost use Rattle.nor_serprog.specs.declared.fault.Fault.TheVariants.{Read, Write};
ghost use Rattle.nor_reader.specs.Compared.{CountsMismatch};
ghost use Rattle.nor_reader.specs.Known.{tables_reach, table_end, Compares, ComparesPiece};
ghost use Rattle.nor_base.specs.Wire.{wire};

use crate::difference::{Difference, Mismatch, first_difference};
use nor_base::{ByteIn, ByteOut};
use nor_serprog::{Limits, operate};

/// The instruction that reads the SFDP tables.
const READ_SFDP: u8 = 0x5A;

/// A byte for its eight dummy clocks.
const DUMMY: u8 = 0x00;

/// Most bytes that are read at once.
const MOST: usize = 256;

/// How far an SFDP's headers reach in these bytes: the end of the parameter headers or, where it is
/// further, of the last table that one of them points at, and no further than the bytes. 0 where
/// there are fewer than the header's 8. The signature isn't looked at.
pub fn tables_reach(tables: &[u8]) -> usize
    ensures reach { result ≡ tables_reach tables.now }
    ensures within { result ≤ length tables.now }
{
    if tables.len() < 8 {
        return 0;
    }
    let headers = usize::from(tables[6]) + 1;
    let mut reach = 8 + 8 * headers;
    if tables.len() < reach {
        return tables.len();
    }
    for i in 0..headers {
        reach = reach.max(table_end(tables, i));
    }
    reach.min(tables.len())
}

/// Where the table of the parameter header with an index, from 0 on, ends: an address of the SFDP.
#[tactic(auto, unfolding(nor_sfdp::specs::Headers::header_at))]
pub fn table_end(tables: &[u8], i: usize) -> usize
    requires { 16 + 8 * i ≤ length tables.now }
    ensures { result ≡ table_end tables.now i }
{
    let at = 8 + 8 * i;
    let pointer = usize::from(tables[at + 4])
        + 256 * usize::from(tables[at + 5])
        + 65536 * usize::from(tables[at + 6]);
    pointer + 4 * usize::from(tables[at + 3])
}

/// Has the device read its chip's SFDP from address 0 on (5Ah), at most 256 bytes at once, and
/// compares it with `tables`. It takes no memory.
///
/// `Differs` names the lowest address with another byte; no more was read then. `Exchange` where
/// the exchange of a read ended early.
pub fn compare_tables<R: ByteIn, W: ByteOut>(
    from: &mut R,
    to: &mut W,
    limits: &Limits,
    tables: &[u8],
) -> Result<(), Mismatch>
    requires size { length tables.now ≤ 2 ^ 24 }
    ensures compared { Compares (wire (W.held to.old) (R.ahead from.old))
        (wire (W.held to.new) (R.ahead from.new)) result limits.now tables.now }
    ensures counts { CountsMismatch Read (R.count from.old) (R.count from.new) result
        × CountsMismatch Write (W.count to.old) (W.count to.new) result }
{
    let most = (limits.asked as usize).min(MOST);
    let mut done = 0;
    while done < tables.len() {
        let len = (tables.len() - done).min(most);
        if let Err(why) = compare_piece(from, to, done as u32, &tables[done..done + len]) {
            return Err(why);
        }
        done += len;
    }
    Ok(())
}

/// Has the device read as many bytes as a piece of the tables has, from its address on, and
/// compares them with it.
fn compare_piece<R: ByteIn, W: ByteOut>(
    from: &mut R,
    to: &mut W,
    address: u32,
    piece: &[u8],
) -> Result<(), Mismatch>
    requires size { length piece.now ≤ 256 }
    requires address { address < 2 ^ 24 }
    ensures compared { ComparesPiece (wire (W.held to.old) (R.ahead from.old))
        (wire (W.held to.new) (R.ahead from.new)) result address piece.now }
    ensures counts { CountsMismatch Read (R.count from.old) (R.count from.new) result
        × CountsMismatch Write (W.count to.old) (W.count to.new) result }
{
    let [_, high, low, lowest] = address.to_be_bytes();
    let mut room = [0; MOST];
    let got = &mut room[..piece.len()];
    operate(from, to, &[READ_SFDP, high, low, lowest, DUMMY], got)?;
    match first_difference(got, piece) {
        None => Ok(()),
        Some(place) => Err(Mismatch::Differs(Difference {
            address: address + place as u32,
            chip: got[place],
            want: piece[place],
        })),
    }
}
