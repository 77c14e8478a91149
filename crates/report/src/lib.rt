// The report of a task: its Pareto front in lent slices, and the text of the front's lines; with entries, and without.
#![tactic(auto)]

mod asked;
mod bytes;
mod call;
mod text;

pub use call::{print, report};

// What a report has found and written: how many entries, and how many bytes of text.
#[derive(Clone, Copy)]
pub struct Written {
    pub entries: usize,
    pub bytes: usize,
}
