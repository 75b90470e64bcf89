//! One piece of what the chip behind a device holds, compared with bytes.

ghost use Rattle.std.specs.Prelude.{◌≡◌, ◌<◌, ◌+◌, ◌^◌, length};
ghost use Rattle.nor_base.specs.Wire.{wire};
ghost use Rattle.nor_loop.specs.Reads.{chunk};
ghost use Rattle.norprog_player.specs.Access.{far_way, way_at};
ghost use Rattle.norprog_player.specs.Compared.{ReadsAt};

use crate::access::Access;
use nor_base::{ByteIn, ByteOut};
use nor_reader::{Mismatch, ReadBy, compare_part};

/// The first address that three bytes don't reach.
pub(crate) const FAR: u32 = 1 << 24;

/// Has the device read as many bytes as a piece has, from an address on, and compares them with it;
/// nothing where no instruction reaches it.
pub(crate) fn compare_piece<R: ByteIn, W: ByteOut>(
    from: &mut R,
    to: &mut W,
    access: Access,
    address: u32,
    piece: &[u8],
) -> Result<(), Mismatch>
    requires size { length piece.now < 2 ^ 24 }
    requires end { address + length piece.now < 2 ^ 32 + 1 }
    ensures { ReadsAt (way_at access address) (chunk address piece.now)
        (wire (W.held to.old) (R.ahead from.old)) (wire (W.held to.new) (R.ahead from.new))
        result }
{
    match way_at(access, address) {
        Some(by) => compare_part(from, to, by, address, piece),
        None => Ok(()),
    }
}

/// By which instruction a piece is read from an address on.
fn way_at(access: Access, address: u32) -> Option<ReadBy>
    ensures { result ≡ way_at access address }
{
    match access {
        Access::Four => Some(ReadBy::Content { mode4: true }),
        Access::Dedicated | Access::Entered { .. } | Access::Near => {
            if address < FAR {
                Some(ReadBy::Content { mode4: false })
            } else {
                far_way(access)
            }
        }
    }
}

/// The same of one that three address bytes don't reach.
fn far_way(access: Access) -> Option<ReadBy>
    ensures { result ≡ far_way access }
{
    match access {
        Access::Four | Access::Near => None,
        Access::Dedicated => Some(ReadBy::FourBytes),
        Access::Entered { enter, leave } => Some(ReadBy::Entered { enter, leave }),
    }
}
