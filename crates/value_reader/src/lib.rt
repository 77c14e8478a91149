// Not for outsiders. A line's value, read: the questions about it, and what the record is to hold of it.
#![tactic(auto)]

mod values;

pub use values::read_value;
