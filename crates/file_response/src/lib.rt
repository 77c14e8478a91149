// The best response to a leader plan in the task that a hall file's text says, in lent slices.
#![tactic(auto)]

ghost use Rattle.task_format.specs.Parse.{parse};
ghost use Rattle.questions.specs.Lent.{lent};
ghost use Rattle.questions.specs.Workspace.{SameSlices};
ghost use Rattle.planner.specs.AnswerCall.{returned};
ghost use Rattle.file_response.specs.ResponseCall.{ResponseCall};

use outcome::Refusal;
use planner::{Answered, best_response};
use questions::Workspace;
use task_reader::read;

// The best response to a leader plan in the task that a text says, or the first question that gets no.
pub fn response_in(
    text: &[u8],
    leader_plan: &[u8],
    work: &mut Workspace<'_>,
    plan: &mut [u8],
) -> Result<Answered, Refusal>
    ensures same { SameSlices (lent work) }
    ensures called { ResponseCall (parse text.now) leader_plan.now (lent work) (lent plan) (returned result) }
{
    let task = read(text)?;
    best_response(task, leader_plan, work, plan)
}
