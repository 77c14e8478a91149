// A task that obeys document 01's "The hall": question 9 has got its yes. In a contract it is the task itself.
// Where `new` gives none, its callers refuse with `InvalidTask`: no crate below them has both tasks and refusals.
ghost use Rattle.std.specs.Prelude.{◌≡◌, MatchOption};
ghost use Rattle.strips.specs.Task.{Valid};

use crate::{Task, is_valid};
use std::marker::Model;

#[derive(Clone, Copy)]
pub struct ValidTask {
    task: Task,
}

impl Model for ValidTask {
    ghost use Rattle.strips.specs.Task.{Valid};
    ghost use Rattle.strips.specs.declared.Task.{Task as StripsTask};

    ghost Value = { StripsTask };

    ghost view = { λ v. v.task };

    ghost inverse = { λ t. record { task = t } };

    ghost invariant = { λ v. Valid v.task };
}

impl ValidTask {
    // The task as a valid one; none where it does not obey.
    #[tactic(auto, using(crate::specs::Laws::Decision::result_yes, crate::specs::Laws::Decision::result_no))]
    pub fn new(task: Task) -> Option<ValidTask>
        ensures { MatchOption result (Valid task → ⊥) (λ valid. (valid ≡ task) × Valid task) }
    {
        if is_valid(task) {
            Some(ValidTask { task })
        } else {
            None
        }
    }

    // The task itself.
    pub fn task(&self) -> &Task
        ensures same { result.now ≡ self.now }
        ensures valid { Valid self.now }
    {
        &self.task
    }
}
