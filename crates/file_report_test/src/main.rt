// Halls and damaged texts from another planner, parted by "%" on standard input: prints what the report program prints for each, so
// that the file stdout has that planner's outputs.
#![tactic(auto)]

use input::read_full;
use report_program::print_answer;
use std::io;

// What is read at once; a longer input is cut there.
const INPUT_BYTES: usize = 262_144;

// Each text ends at a "%" or with the input.
fn print_answers(rt: &impl Print, input: &[u8]) -> io::Result<()> {
    for text in input.split_inclusive(|b| *b == b'%') {
        print_answer(rt, text.strip_suffix(b"%").unwrap_or(text))?;
    }
    Ok(())
}

fn main(rt: HostRuntime) -> io::Result<()> {
    let mut input = [0u8; INPUT_BYTES];
    let n = read_full(&mut rt.reader(), &mut input)?;
    print_answers(&rt, &input[..n])
}
