//! What a check finds: the verdict and, of a no, a chip that shows it.

ghost use Rattle.std.specs.Prelude.{◌≡◌, ◌≢◌, Some, unwrap_or};
ghost use Rattle.norprog_check.specs.Readings.{TakesChip};

use crate::readings::Said;
use nor_base::Meaning;
use nor_check::Verdict;

/// How a chip in memory behaves on which `run` goes wrong just as a no says.
#[derive(Clone, Copy)]
pub struct ShowingChip {
    /// For how many status reads each program and each erase keeps it busy.
    pub each_busy: u32,
    /// A set write enable latch stays set where the address mode is entered or left.
    pub keep: bool,
    /// Bytes of its page, where that isn't the meaning's own.
    pub page: Option<u32>,
}

/// What a check finds.
#[derive(Clone, Copy)]
pub struct Finding {
    /// Whether the script does its job.
    pub verdict: Verdict,
    /// Of a no, a chip that shows it; none where such a chip is busy for 2^32 status reads or more.
    pub chip: Option<ShowingChip>,
}

/// The finding of what a checker said of the chips of a meaning.
pub(crate) fn finding_of(said: &Said, meaning: &Meaning) -> Finding
    ensures verdict { result.verdict ≡ said.now.verdict }
    ensures chip { TakesChip said.now meaning.now.page result.chip }
{
    Finding {
        verdict: said.verdict,
        chip: chip_of(said, meaning.page),
    }
}

/// The chip that shows a no, where its number of status reads has 32 bits.
fn chip_of(said: &Said, own: u32) -> Option<ShowingChip>
    ensures { TakesChip said.now own result }
{
    let step = match said.verdict {
        Verdict::Yes => return None,
        Verdict::No { step, why: _ } => step,
    };
    let reads = said.witness.reads;
    if reads >= u64::from(u32::MAX) {
        return None;
    }
    Some(ShowingChip {
        each_busy: (reads + 1) as u32,
        keep: step == said.steps,
        page: other_page(said.witness.page, own),
    })
}

/// A page, where it isn't the own one.
fn other_page(page: u32, own: u32) -> Option<u32>
    ensures other { result ≢ Some own }
    ensures page { unwrap_or result own ≡ page }
{
    if page == own { None } else { Some(page) }
}
