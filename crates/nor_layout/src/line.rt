//! What one line of a layout says.

ghost use Rattle.std.specs.Prelude.{◌≡◌, Ok, Err, MatchResult};
ghost use Rattle.nor_layout.specs.Cause.{fault_of};
ghost use Rattle.nor_layout.specs.Line.{is_taken, region_in, line_says, line_below};

use crate::cause::Cause;
use crate::fault::LayoutFault;
use crate::fields::{two_fields, two_offsets};
use crate::number::number;
use crate::region::Region;
use nor_lines::without_first_blanks;

/// As many regions as a layout may have.
const MOST_REGIONS: usize = 255;

/// The region that a line adds to those above it, None where the line is skipped, or the fault that
/// tells why it is refused.
pub(crate) fn region_below<'a>(
    above: &[Region<'a>],
    number: u64,
    line: &'a [u8],
) -> Result<Option<Region<'a>>, LayoutFault>
    ensures { MatchResult (line_below above.now line.now) (λ said. result ≡ Ok said)
        (λ cause. result ≡ Err (fault_of cause number)) }
{
    added_by(above, line).map_err(|cause| cause.at(number))
}

/// The region that a line adds to those above it, None where the line is skipped, or why the line
/// is refused.
fn added_by<'a>(above: &[Region<'a>], line: &'a [u8]) -> Result<Option<Region<'a>>, Cause>
    ensures { result ≡ line_below above.now line.now }
{
    let Some(region) = region_on(line)? else {
        return Ok(None);
    };
    if is_taken(above, region.name) {
        return Err(Cause::RepeatedName);
    }
    if above.len() >= MOST_REGIONS {
        return Err(Cause::TooMany);
    }
    Ok(Some(region))
}

/// Whether a region has this name, byte for byte.
pub(crate) fn is_taken(regions: &[Region<'_>], name: &[u8]) -> bool
    ensures { result ≡ is_taken regions.now name.now }
{
    regions.iter().any(|region| region.name == name)
}

/// The region on a line, None where the line is skipped, or why that line is refused.
fn region_on(line: &[u8]) -> Result<Option<Region<'_>>, Cause>
    ensures { result ≡ line_says line.now }
{
    let line = without_first_blanks(line);
    match line {
        [] | [b'#', ..] => Ok(None),
        _ => Ok(Some(region_of(line)?)),
    }
}

/// The region that the fields of a line spell, or why they spell none.
fn region_of(line: &[u8]) -> Result<Region<'_>, Cause>
    ensures { result ≡ region_in line.now }
{
    let Some((offsets, name)) = two_fields(line) else {
        return Err(Cause::BadLine);
    };
    let Some((start, end)) = two_offsets(offsets) else {
        return Err(Cause::BadLine);
    };
    let (Some(start), Some(end)) = (number(start), number(end)) else {
        return Err(Cause::BadNumber);
    };
    if end < start {
        return Err(Cause::EndBeforeStart);
    }
    Ok(Region { start, end, name })
}
