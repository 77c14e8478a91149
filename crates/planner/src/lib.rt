// The best response to a leader plan, `best_response`. All else is not for outsiders: the searches of a task, and what the rows say after them.
#![tactic(auto)]

mod answer_call;
mod first;
mod goal;
mod reading;
mod response;
mod searches;
mod weights;

pub use answer_call::best_response;
use outcome::Answer;
pub use reading::{Row, note, put_note, rank, settled_row};
pub use searches::solve;

// The answer, and the number of steps of its plan: document 01 hands back both, 0 steps where the answer is none, and compares answers without them.
#[derive(Clone, Copy)]
pub struct Answered {
    pub answer: Answer,
    pub steps: usize,
}
