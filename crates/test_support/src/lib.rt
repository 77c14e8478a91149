// What the test programs share, not for outsiders: prints, document 01's hall, and how many places hold a number.
#![tactic(auto)]

mod counts;
mod shown;
mod tasks;

pub use counts::{count, count_rows};
pub use shown::{print_answer, print_entries, print_numbers, print_plans, print_refusal};
pub use tasks::{
    action, bare, free_outage, no_moves, no_outages, other_entry, with_actions, worked,
};
