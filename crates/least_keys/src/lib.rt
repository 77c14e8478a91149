// Not for outsiders. The least keys of all rows that can be reached from one, by a heap: the open row of least key is settled next.
#![tactic(auto)]

mod keys;

pub use keys::find_keys;
