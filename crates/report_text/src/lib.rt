// Not for outsiders. The text of a front: its bytes, counted and put into a lent slice; and the text of a refusal. What they are stands in
// specs/Report.antt.
#![tactic(auto)]

mod parts;
mod sizes;

pub use parts::{put_entry, put_head, put_refusal};
pub use sizes::{digit_count, entry_bytes, head_bytes, plan_bytes};
