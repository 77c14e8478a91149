// What the report program does, not for outsiders: reads a hall file on standard input and prints the answer to it on standard
// output. Where reading or writing fails, a line on standard error says so.
#![tactic(auto)]

use file_report::{OUTPUT_BYTES, answer_text, blank_input};
use input::read_full;
use std::io;
use std::process::ExitCode;

// Prints the answer to a text.
#[tactic(auto, using(file_report::specs::Laws::Printed::put_fits))]
pub fn print_answer(rt: &impl Print, text: &[u8]) -> io::Result<()> {
    let mut output = [0u8; OUTPUT_BYTES];
    let bytes = answer_text(text, &mut output);
    rt.write_all(&output[..bytes])
}

// Says what failed, and why.
fn fail(rt: &impl Eprint, what: &str, error: io::Error) -> ExitCode {
    let _ = eprintln!(rt; "{what}: {error}");
    ExitCode::FAILURE
}

// The program, and the status that it ends with.
pub fn run(rt: &(impl Input + Print + Eprint)) -> ExitCode {
    let mut bytes = blank_input();
    match read_full(&mut rt.reader(), &mut bytes) {
        Ok(n) => match print_answer(rt, &bytes[..n]) {
            Ok(()) => ExitCode::SUCCESS,
            Err(error) => fail(rt, "standard output cannot be written", error),
        },
        Err(error) => fail(rt, "standard input cannot be read", error),
    }
}
