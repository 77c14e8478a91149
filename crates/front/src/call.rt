// The front call: the lines are found and their plans written, and their entries are stored from the rows.
ghost use Rattle.questions.specs.Lent.{lent};
ghost use Rattle.questions.specs.Workspace.{SameSlices};
ghost use Rattle.front.specs.FrontCall.{returned, FrontCall};

use crate::asked::ask_front;
use front_entries::take_entries;
use front_lines::Lines;
use outcome::{Entry, Refusal};
use questions::Workspace;
use strips::Task;

// The Pareto front of a task: the number of its lines, with their entries and plans, or the first question that gets no.
#[tactic(auto, using(crate::specs::Laws::Listed::listed_lines))]
pub fn front(
    task: Task,
    work: &mut Workspace<'_>,
    entries: &mut [Entry],
    plans: &mut [u8],
) -> Result<usize, Refusal>
    ensures same { SameSlices (lent work) }
    ensures called { FrontCall task (lent work) (lent entries) (lent plans) (returned result) }
{
    let count = ask_front(task, work, entries.len(), plans.len())?;
    // Lent as `&` out of the workspace, the rows would be lost to the proof.
    let rows = &mut *work.rows;
    Lines::new(rows, count).write_plans(plans);
    take_entries(entries, rows, count);
    Ok(count)
}
