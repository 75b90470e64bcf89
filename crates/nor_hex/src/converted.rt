//! A raw image, read and written as Intel HEX.

ghost use Rattle.std.specs.Prelude.{◌≡◌, ◌⊎◌, ◌+◌, ◌-◌, ◌<◌, ◌≤◌, ◌%◌, ◌^◌, [], length, IfOk};
ghost use Rattle.std.specs.Prelude.{IfErr, OnOk};
ghost use Rattle.std.specs.Bool.{OnFalse, OnTrue};
ghost use Rattle.nor_base.specs.Device.{Gives, IsAtEnd, one_more};
ghost use Rattle.nor_hex.specs.Converted.{HasMore, HasOtherLength, IsConverted, IsCutPart};
ghost use Rattle.nor_hex.specs.Converted.{IsShort, IsUnended, Stops, WasRead};
ghost use Rattle.nor_hex.specs.declared.converted.Unconverted.TheVariants.{Image};
ghost use Rattle.nor_base.specs.Wire.{wire};

use crate::laws::parts_join;
use crate::writer::{write_data, write_end};
use nor_base::{ByteIn, ByteOut, fill_from};
use std::alloc::Global;
use thiserror::Error;

/// Why a raw image isn't written as HEX.
#[derive(Clone, Copy, Debug, PartialEq, Eq, Drop, Error)]
pub enum Unconverted {
    /// Its reader failed, or has fewer bytes than were said, or more.
    #[error("the image can't be read")]
    Image,
    /// The output failed.
    #[error("the output failed")]
    Output,
    #[error("out of memory")]
    Memory,
}

/// How many bytes are read before they are written: those of a segment.
const SEGMENT: usize = 1 << 16;

/// Past the last address.
const PAST: u64 = 1 << 32;

/// Whether the last of `len` bytes from the address `at` on is at FFFFFFFFh or below.
pub fn fits(len: u64, at: u32) -> bool
    ensures fits { OnTrue result (at + len ≤ 2 ^ 32) }
    ensures long { OnFalse result (2 ^ 32 < at + len) }
{
    len <= PAST - u64::from(at)
}

/// Writes the HEX text of the bytes of a reader, of which there are `len`, from the address `at`
/// on. It takes memory for 64 KiB.
///
/// `Image` where the reader fails, or gives fewer bytes or more; `Output` where `out` fails;
/// `Memory` where a growth is refused.
pub fn convert<R: ByteIn, W: ByteOut>(
    alloc: Global,
    bin: &mut R,
    len: u64,
    at: u32,
    out: &mut W,
) -> Result<(), Unconverted>
    requires fits { at + len ≤ 2 ^ 32 }
    ensures converted { IfOk result
        (λ _. IsConverted at len (R.ahead bin.old) (W.held out.old) (W.held out.new)) }
    ensures stopped { IfErr result
        (Stops ((R.count bin.new ≡ one_more (R.count bin.old))
        ⊎ HasOtherLength len (R.ahead bin.old))
        (W.count out.new ≡ one_more (W.count out.old))) }
    ensures unended { IfErr result (λ _. IsUnended at (W.held out.old) (W.held out.new)) }
{
    parts_join();
    let Ok(mut buffer) = vec![in alloc; 0u8; SEGMENT] else {
        return Err(Unconverted::Memory);
    };
    write_parts(bin, len, at, buffer.as_mut_slice(), out)?;
    only_end(bin)?;
    match write_end(out) {
        Ok(()) => Ok(()),
        Err(_) => Err(Unconverted::Output),
    }
}

/// Writes the data of so many bytes, segment after segment.
fn write_parts<R: ByteIn, W: ByteOut>(
    bin: &mut R,
    len: u64,
    at: u32,
    buffer: &mut [u8],
    out: &mut W,
) -> Result<(), Unconverted>
    requires buffer { (at + len ≤ 2 ^ 32) × (length buffer.old ≡ 65536) }
    ensures read { IfOk result
        (λ _. WasRead at len (wire (W.held out.old) (R.ahead bin.old))
        (wire (W.held out.new) (R.ahead bin.new))) }
    ensures counts { OnOk result
        ((R.count bin.new ≡ R.count bin.old) × (W.count out.new ≡ W.count out.old)) }
    ensures stopped { IfErr result
        (Stops ((R.count bin.new ≡ one_more (R.count bin.old))
        ⊎ IsShort len (R.ahead bin.old))
        (W.count out.new ≡ one_more (W.count out.old))) }
    ensures unended { IfErr result (λ _. IsUnended at (W.held out.old) (W.held out.new)) }
{
    parts_join();
    let mut done = 0;
    while done < len {
        let address = at + done as u32;
        let end = len.min(done + room(address));
        write_part(bin, address, &mut buffer[..(end - done) as usize], out)?;
        done = end;
    }
    Ok(())
}

/// How many addresses a segment has from this one on.
fn room(at: u32) -> u64
    ensures { result ≡ 65536 - at % 65536 }
{
    SEGMENT as u64 - u64::from(at) % SEGMENT as u64
}

/// Reads the bytes of a part, which is in one segment, and writes its data.
fn write_part<R: ByteIn, W: ByteOut>(
    bin: &mut R,
    at: u32,
    part: &mut [u8],
    out: &mut W,
) -> Result<(), Unconverted>
    requires inside { at % 65536 + length part.old ≤ 65536 }
    ensures read { IfOk result
        (λ _. WasRead at (length part.old) (wire (W.held out.old) (R.ahead bin.old))
        (wire (W.held out.new) (R.ahead bin.new))) }
    ensures counts { OnOk result
        ((R.count bin.new ≡ R.count bin.old) × (W.count out.new ≡ W.count out.old)) }
    ensures stopped { IfErr result
        (Stops ((R.count bin.new ≡ one_more (R.count bin.old))
        ⊎ IsShort (length part.old) (R.ahead bin.old))
        (W.count out.new ≡ one_more (W.count out.old))) }
    ensures cut { IfErr result (λ _. IsCutPart at (W.held out.old) (W.held out.new)) }
{
    read_part(bin, part)?;
    match write_data(at, part, out) {
        Ok(()) => Ok(()),
        Err(_) => Err(Unconverted::Output),
    }
}

/// Fills a part from a reader. `Image` where it fails or has fewer bytes.
fn read_part<R: ByteIn>(bin: &mut R, part: &mut [u8]) -> Result<(), Unconverted>
    ensures given { IfOk result (λ _. Gives (R.ahead bin.old) part.new (R.ahead bin.new)) }
    ensures count { OnOk result (R.count bin.new ≡ R.count bin.old) }
    ensures short { IfErr result (λ why. (why ≡ Image)
        × ((R.count bin.new ≡ one_more (R.count bin.old))
        ⊎ IsShort (length part.old) (R.ahead bin.old))) }
{
    match fill_from(bin, part) {
        Ok(count) if count == part.len() => Ok(()),
        _ => Err(Unconverted::Image),
    }
}

/// Refuses a reader that fails or has more bytes, by `Image`.
fn only_end<R: ByteIn>(bin: &mut R) -> Result<(), Unconverted>
    ensures ended { IfOk result
        (λ _. Gives (R.ahead bin.old) [] (R.ahead bin.new) × IsAtEnd (R.ahead bin.new)) }
    ensures more { IfErr result (λ why. (why ≡ Image)
        × ((R.count bin.new ≡ one_more (R.count bin.old)) ⊎ HasMore (R.ahead bin.old))) }
{
    match fill_from(bin, &mut [0]) {
        Ok(0) => Ok(()),
        _ => Err(Unconverted::Image),
    }
}
