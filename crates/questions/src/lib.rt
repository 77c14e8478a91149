// Not for outsiders. What is lent to work in, with the question about its places, and the question about the record. What calls promise in common stands in
// specs/.
#![tactic(auto)]

mod workspace;

ghost use Rattle.std.specs.Prelude.{◌≡◌, MatchResult};
ghost use Rattle.strips.specs.Task.{Valid};
ghost use Rattle.outcome.specs.declared.Refusal.TheVariants.{InvalidTask};
ghost use Rattle.questions.specs.Record.{record_fault, number_in, place_in};

use outcome::Refusal;
use strips::{Task, ValidTask};
pub use workspace::{Workspace, places};

// The first question about the record that gets no, or the task as a valid one.
pub fn record_verdict(task: Task) -> Result<ValidTask, Refusal>
    ensures fault { (number_in result ≡ record_fault task) × (place_in result ≡ 0) }
    ensures valid { MatchResult result (λ valid. (valid ≡ task) × Valid task) (λ e. (e ≡ InvalidTask) × (Valid task → ⊥)) }
{
    ValidTask::new(task).ok_or(Refusal::InvalidTask)
}
