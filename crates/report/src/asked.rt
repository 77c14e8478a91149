// All questions of the report call in their order; plans and text are written, and the lines are left in the rows.
ghost use Rattle.std.specs.Prelude.{◌≤◌, length};
ghost use Rattle.questions.specs.Lent.{lent};
ghost use Rattle.questions.specs.Workspace.{SameSlices};
ghost use Rattle.pareto.specs.Layout.{plans_for};
ghost use Rattle.report.specs.ReportCall.{returned};
ghost use Rattle.report.specs.Asked.{LinesPrinted, ReportListed};

use crate::Written;
use crate::bytes::report_bytes;
use crate::text::put_report;
use front::ask_front;
use front_lines::Lines;
use outcome::Refusal;
use questions::Workspace;
use rows::WORDS;
use strips::Task;

// Question 16, and plans and text of the lines.
fn print_lines(lines: &Lines<'_>, plans: &mut [u8], text: &mut [u8]) -> Result<Written, Refusal>
    requires { length (plans_for lines.now) ≤ length plans.old }
    ensures { LinesPrinted lines.now (lent plans) (lent text) (returned result) }
{
    if text.len() < report_bytes(lines) {
        return Err(Refusal::OutputTooLong);
    }
    lines.write_plans(plans);
    let bytes = put_report(text, lines, plans);
    Ok(Written {
        entries: lines.count(),
        bytes,
    })
}

// With room for so many entries; the rows are cleared where question 16 gets no.
#[tactic(auto, using(front::specs::Laws::Listed::listed_lines, crate::specs::Laws::Listed::report_refused))]
pub fn list_report(
    task: Task,
    work: &mut Workspace<'_>,
    room: usize,
    plans: &mut [u8],
    text: &mut [u8],
) -> Result<Written, Refusal>
    ensures same { SameSlices (lent work) }
    ensures listed { ReportListed task (lent work) (lent plans) (lent text) room (returned result) }
{
    let count = ask_front(task, work, room, plans.len())?;
    // Lent as `&` out of the workspace, the rows would be lost to the proof.
    let rows = &mut *work.rows;
    let printed = print_lines(&Lines::new(rows, count), plans, text);
    if printed.is_err() {
        rows.fill([0; WORDS]);
    }
    printed
}
