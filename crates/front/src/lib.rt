// The Pareto front of a task, in a lent slice of entries and a lent slice of plan numbers.
#![tactic(auto)]

mod asked;
mod call;
mod lines;

pub use asked::ask_front;
pub use call::front;
