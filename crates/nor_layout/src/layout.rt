//! A layout that was read, and the choice of its regions.

ghost use Rattle.std.specs.Prelude.{◌≡◌, ℕ, [], Contains, IsOk, IsErr, IfOk, IfErr};
ghost use Rattle.nor_layout.specs.Chosen.{has, is_chosen, first_unknown, RefusesChoice};

use crate::chosen::{Chosen, intervals_of};
use crate::fault::LayoutFault;
use crate::line::is_taken;
use crate::region::Region;
use nor_base::Bytes;
use std::alloc::Global;
use std::marker::Model;

/// The regions of a layout, in the order of their lines. It borrows the names from the text.
#[derive(Drop)]
pub struct Layout<'a> {
    pub(crate) regions: Vec<Region<'a>>,
}

impl<'a> Model for Layout<'a> {
    ghost use Rattle.std.specs.Prelude.{List};
    ghost use Rattle.nor_layout.specs.Region.{Region, AreRegions};

    ghost Value = { List Region };

    ghost view = { λ layout. layout.regions.items };

    ghost invariant = { λ layout. AreRegions layout.regions.items };
}

impl<'a> Layout<'a> {
    /// The regions, in the order of their lines.
    pub fn regions(&self) -> &[Region<'a>]
        ensures { result.now ≡ self.now }
    {
        self.regions.as_slice()
    }

    /// The union of the regions of these names, byte for byte. With no name every address is
    /// chosen, and no memory is taken. A name given twice counts once.
    ///
    /// `UnknownRegion` has the index of the first name that no region has. `Memory` where a growth
    /// is refused; then each name is known.
    pub fn choose(&self, alloc: Global, names: &[Bytes]) -> Result<Chosen, LayoutFault>
        ensures known { IfOk result (λ _. first_unknown self.now names.now ≡ None) }
        ensures chosen { IfOk result (λ chosen. (a : ℕ)
            → has chosen a ≡ is_chosen self.now names.now a) }
        ensures refused { IfErr result (RefusesChoice self.now names.now) }
        ensures whole { names.now ≡ [] → IsOk result }
        ensures empty_name { Contains names.now [] → IsErr result }
    {
        let regions = self.regions.as_slice();
        if let Some(index) = unknown_name(regions, names) {
            return Err(LayoutFault::UnknownRegion(index as u64));
        }
        if names.is_empty() {
            return Ok(Chosen::whole());
        }
        Ok(Chosen::of(intervals_of(alloc, regions, names)?))
    }
}

/// The index of the first name that no region has.
fn unknown_name(regions: &[Region<'_>], names: &[Bytes]) -> Option<usize>
    ensures { result ≡ first_unknown regions.now names.now }
{
    names
        .iter()
        .position(|name| !is_taken(regions, name.as_slice()))
}
