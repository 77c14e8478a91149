// The replay of a leader plan and then a follower plan.
#![tactic(auto)]

mod steps;

use outcome::{Minutes, Price};
pub use steps::{replay, replay_valid};

// A leader plan and then a follower plan, run from the initial state.
#[derive(Clone, Copy)]
pub struct Ended {
    pub price: Price,
    pub minutes: Minutes,
    pub state: u64,
    pub goal: bool,
}
