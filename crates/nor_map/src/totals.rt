//! What a map says of the whole plan.

ghost use Rattle.std.specs.Prelude.{◌≡◌, IfOk, flat_map};
ghost use Rattle.nor_map.specs.Totals.{cells_in, totals_text};

use crate::marks::PlanMarks;
use crate::state::State;
use itoa::Buffer;
use std::alloc::{AllocError, Global};

/// How many blocks are erased and pages programmed, and how many cells are in each state.
pub(crate) fn totals(alloc: Global, marks: &PlanMarks<'_>) -> Result<Vec<u8>, AllocError>
    ensures { IfOk result (λ text. text.items ≡ totals_text marks.now) }
{
    join(
        alloc,
        &[
            b"erases ",
            Buffer::new().format(marks.blocks).as_bytes(),
            b", programs ",
            Buffer::new().format(marks.programs).as_bytes(),
            b"; cells: ",
            Buffer::new()
                .format(cells_in(marks, State::Changed))
                .as_bytes(),
            b" changed, ",
            Buffer::new()
                .format(cells_in(marks, State::Restored))
                .as_bytes(),
            b" written back, ",
            Buffer::new()
                .format(cells_in(marks, State::Erased))
                .as_bytes(),
            b" erased, ",
            Buffer::new()
                .format(cells_in(marks, State::Kept))
                .as_bytes(),
            b" as they were",
        ],
    )
}

/// These texts, one after another.
fn join(alloc: Global, parts: &[&[u8]]) -> Result<Vec<u8>, AllocError>
    ensures { IfOk result (λ text. text.items ≡ flat_map (λ part. part.now) parts.now) }
{
    let mut text = Vec::new(alloc);
    for part in parts {
        text.extend_from_slice(part)?;
    }
    Ok(text)
}

/// How many cells are in a state.
fn cells_in(marks: &PlanMarks<'_>, state: State) -> u32
    ensures { result ≡ cells_in marks.now state }
{
    let mut count = 0;
    for c in 0..marks.count() {
        if marks.state(c).is(state) {
            count += 1;
        }
    }
    count
}
