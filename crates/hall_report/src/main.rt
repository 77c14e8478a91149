// Reads a hall file on standard input and prints the report of its front, or the first question that gets no and its line.
// A program is run on one input, so two others, on refusals, are the same.
#![tactic(auto)]

use std::process::ExitCode;

fn main(rt: HostRuntime) -> ExitCode {
    report_program::run(&rt)
}
