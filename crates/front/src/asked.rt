// All questions of the front call in their order, with room for so many entries and plan numbers: before anything but the working slices is written to.
ghost use Rattle.questions.specs.Lent.{lent};
ghost use Rattle.questions.specs.Workspace.{SameSlices};
ghost use Rattle.front.specs.FrontCall.{returned};
ghost use Rattle.front.specs.Asked.{FrontAsked};

use crate::lines::list_lines;
use outcome::Refusal;
use questions::{Workspace, record_verdict};
use strips::Task;

// Entries and plan numbers stay two parameters: they are the rooms of the call's own two slices, as document 01 has them.
// The number of lines, which are left in the rows, or the first question that gets no; all else is cleared, or untouched.
#[tactic(auto, using(crate::specs::Laws::Asked::all_questions))]
pub fn ask_front(
    task: Task,
    work: &mut Workspace<'_>,
    entries: usize,
    numbers: usize,
) -> Result<usize, Refusal>
    ensures same { SameSlices (lent work) }
    ensures asked { FrontAsked task (lent work) entries numbers (returned result) }
{
    let n = work.places()?;
    let task = record_verdict(task)?;
    list_lines(task, n, work, entries, numbers)
}
