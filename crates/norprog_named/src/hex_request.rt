//! What the values of a command line of `hex` ask for.

ghost use Rattle.std.specs.Prelude.{◌≡◌, is_some, option_map, IfSome};
ghost use Rattle.norprog_named.specs.HexRequest.{said_address, is_well_formed, AsksFor};

use norprog_common::{HexArgs, OutFile, base};

/// What `hex` is asked for: each value is of its form.
#[derive(Clone, Copy)]
pub struct HexRequest<'a> {
    pub bin: &'a str,
    /// The address of the first byte.
    pub at: u32,
    pub out: OutFile<'a>,
}

/// The request that the values spell. None where one isn't there, or isn't of its form.
pub fn request_of<'a>(given: HexArgs<'a>) -> Option<HexRequest<'a>>
    ensures forms { is_some result ≡ is_well_formed given.entry }
    ensures values { IfSome result (λ request. AsksFor given.entry request) }
{
    Some(HexRequest {
        bin: given.bin?,
        at: address(given.at)?,
        out: given.out?,
    })
}

/// The address that is spelled. None where there is none, or where it isn't of its form.
fn address(text: Option<&str>) -> Option<u32>
    ensures { result ≡ said_address (option_map (λ t. t.now) text.entry) }
{
    base(text?)
}
