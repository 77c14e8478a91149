// The report calls: with entries, which are stored from the rows, and without.
ghost use Rattle.questions.specs.Lent.{lent};
ghost use Rattle.questions.specs.Workspace.{SameSlices};
ghost use Rattle.report.specs.ReportCall.{returned, PrintCall, ReportCall};

use crate::Written;
use crate::asked::list_report;
use front_entries::take_entries;
use outcome::{Entry, Refusal};
use questions::Workspace;
use rows::WORDS;
use strips::Task;

// Room, plans and text stay parameters of their own: they are the call's, as document 01 has them.
// The report of a task without its entries: the plans and the text of its Pareto front, or the first question that gets no, with
// room for so many entries.
pub fn print(
    task: Task,
    work: &mut Workspace<'_>,
    room: usize,
    plans: &mut [u8],
    text: &mut [u8],
) -> Result<Written, Refusal>
    ensures same { SameSlices (lent work) }
    ensures called { PrintCall task (lent work) room (lent plans) (lent text) (returned result) }
{
    let written = list_report(task, work, room, plans, text)?;
    work.rows.fill([0; WORDS]);
    Ok(written)
}

// The report of a task: the entries, the plans and the text of its Pareto front, or the first question that gets no.
pub fn report(
    task: Task,
    work: &mut Workspace<'_>,
    entries: &mut [Entry],
    plans: &mut [u8],
    text: &mut [u8],
) -> Result<Written, Refusal>
    ensures same { SameSlices (lent work) }
    ensures called { ReportCall task (lent work) (lent entries) (lent plans) (lent text) (returned result) }
{
    let written = list_report(task, work, entries.len(), plans, text)?;
    take_entries(entries, work.rows, written.entries);
    Ok(written)
}
