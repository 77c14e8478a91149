// Not for outsiders. Least plans from least keys: a breadth-first pass from the source row over the transitions that keep keys least, actions by rising
// number. The first way to a row is its least plan, and rows are met in the order of their plans: no two plans are compared.
#![tactic(auto)]

mod links;
mod pass;
mod plan;

pub use pass::find_plans;
pub use plan::{rank, write_plan};
