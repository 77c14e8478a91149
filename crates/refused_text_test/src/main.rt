// The report program on a text that is refused at a line: what it prints is compared with the file stdout.
#![tactic(auto)]

use std::process::ExitCode;

fn main(rt: HostRuntime) -> ExitCode {
    report_program::run(&rt)
}
