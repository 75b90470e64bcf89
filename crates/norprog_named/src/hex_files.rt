//! `hex` on its files.

ghost use Rattle.std.specs.Prelude.{◌≡◌};
ghost use Rattle.norprog_files.specs.Files.{Did};
ghost use Rattle.norprog_named.specs.Hex.{EndsHex, refusal_of as told_of};

use crate::hex_request::HexRequest;
use nor_hex::{Unconverted, convert, fits};
use norprog_common::{FileName, Refusal};
use norprog_files::{Files, OutKind, Trail};
use std::alloc::Global;

/// Writes a raw image as Intel HEX (docs/FORMATS.md, section 9). Returns the status, 0.
pub fn hex<F: Files>(
    alloc: Global,
    files: &F,
    trail: &mut F::Trail,
    request: HexRequest<'_>,
) -> Result<u8, Refusal>
    ensures { Did (F.Trail.did trail.old) (F.Trail.did trail.new)
        (λ log. EndsHex (F.unread files.now) request.entry log result) }
{
    let (mut bin, len) = files.open(trail, request.bin, FileName::Bin)?;
    if !fits(len, request.at) {
        return Err(Refusal::BinSize);
    }
    let mut out = files.create(trail, alloc, request.out, OutKind::Hex)?;
    let converted = convert(alloc, &mut bin, len, request.at, &mut out);
    let closed = files.close(trail, request.out.path, out);
    match converted {
        Ok(()) => match closed {
            Ok(()) => Ok(0),
            Err(_) => Err(Refusal::WRITE),
        },
        Err(why) => Err(refusal_of(why)),
    }
}

/// The refusal that tells why an image isn't converted.
fn refusal_of(why: Unconverted) -> Refusal
    ensures { result ≡ told_of why }
{
    match why {
        Unconverted::Image => Refusal::File(FileName::Bin),
        Unconverted::Output => Refusal::WRITE,
        Unconverted::Memory => Refusal::MEMORY,
    }
}
