//! What is added up of a plan's lines as they are printed.

ghost use Rattle.std.specs.Prelude.{◌≡◌, ◌++◌, ℕ, List, [], Option, is_some, IfOk};
ghost use Rattle.nor_job.specs.declared.job.Job.{Job as Work};
ghost use Rattle.nor_outline.specs.declared.line.PlanLine.{PlanLine as Line};
ghost use Rattle.nor_times.specs.declared.times.Times.{Times as KnownTimes};
ghost use Rattle.norprog_plan.specs.Outline.{tables_times};
ghost use Rattle.norprog_plan.specs.Sums.{AreSums, HasRoom};

use nor_job::{Inputs, Job, Source};
use nor_map::{PlanMarks, Wanted};
use nor_outline::PlanLine;
use nor_times::{PlanTimes, Times, read_times};
use std::alloc::{AllocError, Global};

/// What the lines of a plan add up to.
#[derive(Drop)]
pub(crate) struct Sums<'m> {
    /// How long it takes.
    pub times: PlanTimes<'m>,
    /// What its picture shows, where one is asked for.
    pub marks: Option<PlanMarks<'m>>,
}

impl<'m> Sums<'m> {
    /// Of no lines yet. An error comes where memory was refused.
    pub fn new(
        alloc: Global,
        inputs: &Inputs<'_>,
        job: &'m Job,
        drawn: bool,
    ) -> Result<Sums<'m>, AllocError>
        ensures sums { IfOk result
            (λ sums. AreSums job.now (tables_times inputs.now.chip) sums []) }
        ensures drawn { IfOk result (λ sums. is_some sums.marks ≡ drawn) }
    {
        let times = PlanTimes::new(&job.meaning, &job.start, job.verify, known_times(inputs));
        let marks = if drawn {
            let wanted = Wanted::new(&job.image, job.base, &job.chosen);
            Some(PlanMarks::new(alloc, job.meaning.size, job.meaning.page, wanted)?)
        } else {
            None
        };
        Ok(Sums { times, marks })
    }

    /// Adds the next lines. An error comes where memory was refused.
    pub fn add(&mut self, lines: &[PlanLine]) -> Result<(), AllocError>
        requires room { HasRoom self.old lines.now }
        ensures sums { (job : Work) (times : Option KnownTimes) (told : List Line)
            → AreSums job times self.old told
            → IfOk result (λ _. AreSums job times self.new (told ++ lines.now)) }
        ensures drawn { is_some self.new.marks ≡ is_some self.old.marks }
    {
        self.times.add(lines);
        match &mut self.marks {
            Some(marks) => marks.add(lines),
            None => Ok(()),
        }
    }
}

/// The times that the chip's tables tell; a chip of a size alone, or of a sheet, has none.
fn known_times(inputs: &Inputs<'_>) -> Option<Times>
    ensures { result ≡ tables_times inputs.now.chip }
{
    match inputs.chip {
        Source::Sfdp { bytes, .. } => read_times(bytes),
        Source::Uniform(_) | Source::Sheet(_) => None,
    }
}
