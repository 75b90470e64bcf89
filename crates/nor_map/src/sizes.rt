//! How many bytes a cell has.

ghost use Rattle.std.specs.Prelude.{◌≡◌, ◌<◌};
ghost use Rattle.nor_map.specs.Cells.{cell_size};

/// As many cells as a map may have.
const MOST_CELLS: u64 = 65536;

/// How many bytes a cell has: the page, doubled until at most 65,536 cells hold the chip.
pub(crate) fn cell_size(size: u32, page: u32) -> u32
    ensures value { result ≡ cell_size size page }
    ensures some { 0 < result }
{
    let mut cell = page.max(1);
    for _ in 0..16_u32 {
        if u64::from(size) <= MOST_CELLS * u64::from(cell) {
            return cell;
        }
        cell *= 2;
    }
    cell
}
