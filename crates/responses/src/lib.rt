// Not for outsiders. The search from the goal back: for every row at once the least key of a plan to the goal, and its first step.
#![tactic(auto)]

mod goals;
mod hops;
mod values;

pub use hops::{action_of_hop, hop_to, row_of_hop};
pub use values::find_values;
