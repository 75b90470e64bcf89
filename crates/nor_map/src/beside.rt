//! The title of a map, and what is listed beside its cells.

use crate::marks::PlanMarks;
use crate::part::Part::{Address, Any, Own, Size};
use crate::part::put;
use crate::rows::Grid;
use nor_base::Bytes;
use nor_layout::Region;
use std::alloc::AllocError;

/// What a map is of, as it was typed. What is empty is left out.
#[derive(Clone, Copy)]
pub struct Title<'a> {
    /// The image.
    pub image: &'a [u8],
    /// The content.
    pub content: &'a [u8],
    /// The layout.
    pub layout: &'a [u8],
    /// The regions.
    pub regions: &'a [Bytes],
}

/// Puts the title.
pub(crate) fn put_title(out: &mut Vec<u8>, title: &Title<'_>) -> Result<(), AllocError> {
    put(out, b"<text class=\"t\" x=\"96\" y=\"32\">", &[])?;
    let named: [(&[u8], &[u8]); 3] = [
        (b"image", title.image),
        (b"content", title.content),
        (b"layout", title.layout),
    ];
    for (what, name) in named {
        if !name.is_empty() {
            put(out, b"~ ~ ", &[Own(what), Any(name)])?;
        }
    }
    put_chosen(out, title.regions)?;
    put(out, b"</text>\n", &[])
}

/// Puts the names of the regions in the title.
fn put_chosen(out: &mut Vec<u8>, regions: &[Bytes]) -> Result<(), AllocError> {
    if !regions.is_empty() {
        put(out, b"regions", &[])?;
    }
    for name in regions {
        put(out, b" ~", &[Any(name.as_slice())])?;
    }
    Ok(())
}

/// What the colours and outlines mean, and the sizes.
const LEGEND: &[u8] = b"<g transform=\"translate(1560 112)\">
<path class=\"c\" transform=\"translate(0 0) scale(20)\" stroke-width=\".2375\" d=\"M0 .83h1\"/>
<path class=\"c\" transform=\"translate(20 0) scale(20)\" stroke-width=\".475\" d=\"M0 .7125h1\"/>
<path class=\"c\" transform=\"translate(40 0) scale(20)\" stroke-width=\".7125\" d=\"M0 .59h1\"/>
<path class=\"c\" transform=\"translate(60 0) scale(20)\" stroke-width=\".95\" d=\"M0 .475h1\"/>
<text x=\"96\" y=\"15\">changed: new bytes, up to</text>
<text x=\"96\" y=\"31\">1, 2, 3 or 4 quarters of a cell</text>
<path class=\"w\" transform=\"translate(0 44) scale(20)\" d=\"M0 .5h4\"/>
<text x=\"96\" y=\"59\">erased and written back</text>
<path class=\"e\" transform=\"translate(0 72) scale(20)\" d=\"M0 .5h4\"/>
<text x=\"96\" y=\"87\">erased</text>
<path class=\"k\" transform=\"translate(0 100) scale(20)\" d=\"M0 .5h4\"/>
<text x=\"96\" y=\"115\">as it was</text>
<path class=\"g\" d=\"M1 129h78v18h-78z\"/>
<text x=\"96\" y=\"143\">a region</text>
<g class=\"b\"><path d=\"M1 157h78v18h-78z\"/></g>
<text x=\"96\" y=\"171\">an erased block; beside it:</text>
<text x=\"96\" y=\"187\">size, address, the first byte</text>
<text x=\"96\" y=\"203\">it is erased for; +n: n more</text>
<text y=\"235\">the chip: ~</text>
<text y=\"251\">a cell: ~, a row: ~</text>
<text y=\"271\">";

/// Puts the legend and the report.
pub(crate) fn put_beside(
    out: &mut Vec<u8>,
    marks: &PlanMarks<'_>,
    grid: &Grid,
    report: &[u8],
) -> Result<(), AllocError> {
    let size = Size(u64::from(marks.size));
    let cell = u64::from(marks.cell);
    let row = Size(cell.saturating_mul(u64::from(grid.columns)));
    put(out, LEGEND, &[size, Size(cell), row])?;
    for line in report.split(|byte| *byte == b'\n') {
        put(
            out,
            b"<tspan x=\"0\" dy=\"20\">~&#160;</tspan>\n",
            &[Any(line)],
        )?;
    }
    Ok(())
}

/// Puts the list of the regions, and ends the image.
pub(crate) fn put_list(out: &mut Vec<u8>, regions: &[Region<'_>]) -> Result<(), AllocError> {
    for region in regions {
        let parts = [Address(region.start), Address(region.end), Any(region.name)];
        put(out, b"<tspan x=\"0\" dy=\"20\">~:~ ~</tspan>\n", &parts)?;
    }
    put(out, b"</text>\n</g>\n</svg>\n", &[])
}
