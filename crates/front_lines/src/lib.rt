// Not for outsiders. The lines of the Pareto front among the rows of the searches: chosen in one pass, counted, read, written.
#![tactic(auto)]

mod lines;
mod selection;

pub use lines::{Lines, entry};
pub use selection::choose;
