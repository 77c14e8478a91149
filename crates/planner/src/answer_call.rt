// The answer call: the questions in their order, and the best response to a leader plan.
ghost use Rattle.questions.specs.Lent.{lent};
ghost use Rattle.questions.specs.Workspace.{SameSlices};
ghost use Rattle.planner.specs.AnswerCall.{AnswerCall, returned};
ghost use Rattle.planner.specs.Inner.Answer.{PlanReady, RowAnswered, Searching, AnswerStage};

use crate::Answered;
use crate::response::find_response_within;
use least_plans::write_plan;
use outcome::{Minutes, Refusal};
use questions::{Workspace, record_verdict};
use replay::replay_valid;
use rows::{KEY, WORDS, get};
use search::{cost_of_key, steps_of_key};
use strips::{Task, ValidTask};

// Questions 13 and 15, and what the row that was found says of the best response. It takes the search's whole result, since the workspace is cleared behind it
// after a refusal too. The row has been searched forward only, so it is no `Row`.
fn answer_row(
    rows: &[[u64; WORDS]],
    found: Result<Option<usize>, Refusal>,
    plan: &mut [u8],
) -> Result<Answered, Refusal>
    requires { PlanReady rows.now found }
    ensures { RowAnswered rows.now found (lent plan) (returned result) }
{
    let Some(row) = found? else {
        return Ok(Answered {
            answer: None,
            steps: 0,
        });
    };
    let key = get(rows, row, KEY) - 1;
    let steps = steps_of_key(key);
    if plan.len() < steps {
        return Err(Refusal::PlansTooLong);
    }
    write_plan(rows, row, plan);
    let minutes = Minutes(cost_of_key(key));
    Ok(Answered {
        answer: Some(minutes),
        steps,
    })
}

// Questions 13 and 15 and the answer from a state, in the first n places of the working slices; these are cleared then.
fn respond(
    task: ValidTask,
    s: u64,
    n: usize,
    work: &mut Workspace<'_>,
    plan: &mut [u8],
) -> Result<Answered, Refusal>
    requires { Searching task s n work.old }
    ensures same { SameSlices (lent work) }
    ensures answered { AnswerStage task s (lent work) (lent plan) (returned result) }
{
    let found = find_response_within(task, s, n, work);
    let answered = answer_row(&work.rows[..n], found, plan);
    work.clear();
    answered
}

// The best response to a leader plan. The plan's steps stand at the front of the plan slice.
pub fn best_response(
    task: Task,
    leader_plan: &[u8],
    work: &mut Workspace<'_>,
    plan: &mut [u8],
) -> Result<Answered, Refusal>
    ensures same { SameSlices (lent work) }
    ensures promise { AnswerCall task leader_plan.now (lent work) (lent plan) (returned result) }
{
    let n = work.places()?;
    let task = record_verdict(task)?;
    let end = replay_valid(task, leader_plan, &[])?;
    respond(task, end.state, n, work, plan)
}
