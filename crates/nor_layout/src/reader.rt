//! The reader of a layout's text.

ghost use Rattle.std.specs.Prelude.{IfOk, IfErr};
ghost use Rattle.nor_layout.specs.Region.{AreRegions};
ghost use Rattle.nor_layout.specs.Text.{IsLayout, Refuses};

use crate::fault::LayoutFault;
use crate::layout::Layout;
use crate::line::region_below;
use nor_lines::filled;
use std::alloc::Global;

/// Reads a flashrom layout: a line is `start:end name`, in hexadecimal, and both ends belong to the
/// region. The names borrow the text. Regions may overlap and lie past a chip.
///
/// The first line at fault is named, counted from 1, with the first of its causes, as
/// [`LayoutFault`] orders them; `Memory` where a growth is refused.
pub fn read(alloc: Global, text: &[u8]) -> Result<Layout<'_>, LayoutFault>
    ensures accepted { IfOk result (λ layout. IsLayout text.now layout) }
    ensures regions { IfOk result AreRegions }
    ensures refused { IfErr result (Refuses text.now) }
{
    let mut regions = Vec::new(alloc);
    for (number, line) in filled(text) {
        if let Some(region) = region_below(&regions, number, line)? {
            regions.push(region)?;
        }
    }
    Ok(Layout { regions })
}
