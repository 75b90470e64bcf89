//! The chip that a script is played on, and what it holds.

ghost use Rattle.std.specs.Prelude.{◌≡◌, IfOk, IfErr};
ghost use Rattle.nor_job.specs.Status.{start_of};
ghost use Rattle.norprog_run.specs.Play.{page_of, IsSized};
ghost use Rattle.norprog_run.specs.Refusals.{RefusesPaged};

use nor_base::{Meaning, Start};
use nor_job::{BuildFault, Inputs};
use norprog_common::{Refusal, known_chip};

/// What is fixed with a chip besides its busy times.
#[derive(Drop)]
pub(crate) struct Kind {
    pub(crate) meaning: Meaning,
    pub(crate) start: Start,
    pub(crate) page: u32,
}

/// The chip that the inputs describe, whose content has `len` bytes, with a page.
///
/// `Contradiction`, `Sfdp` or `Sheet`, `Status`, `ModeImpossible`, `Page` and `ContentSize`, in
/// this order.
pub(crate) fn kind_of(inputs: &Inputs<'_>, page: Option<u32>, len: u64) -> Result<Kind, Refusal>
    ensures sized { IfOk result (λ kind. IsSized inputs.now page len kind.meaning) }
    ensures start { IfOk result (λ kind. kind.start ≡ start_of inputs.now) }
    ensures page { IfOk result (λ kind. kind.page ≡ page_of page kind.meaning) }
    ensures refused { IfErr result (RefusesPaged inputs.now page len) }
{
    let (meaning, start) = known_chip(inputs)?;
    let page = page.unwrap_or(meaning.page);
    if !meaning.may_page(page) {
        return Err(Refusal::Page);
    }
    if len != u64::from(meaning.size) {
        return Err(Refusal::Build(BuildFault::ContentSize));
    }
    Ok(Kind {
        meaning,
        start,
        page,
    })
}
