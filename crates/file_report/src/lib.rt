// The report of a hall file's text: in lent slices, and what the program prints.
#![tactic(auto)]

mod answers;

pub use answers::{INPUT_BYTES, OUTPUT_BYTES, answer_in, answer_text, blank_input};
