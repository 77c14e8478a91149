// Reads the texts on standard input one after the other; each stands behind a label, and "%" parts them. It prints the label
// and number and place of the refusal, or 0 and 0 and then the text that is written of the task. Then it tries texts at the
// limit of question 1, the longest file, and what the writer refuses.
#![tactic(auto)]

use input::read_full;
use outcome::Refusal;
use std::io;
use strips::{Action, Task};
use task_format::MAX_TEXT;

// What is read at once; a longer input is cut there.
const INPUT_BYTES: usize = 65_536;

// A function prints, since `Display` and what is printed are of other crates.
fn print_refusal(rt: &impl Print, refusal: Refusal) -> io::Result<()> {
    println!(rt; "{} {}", refusal.number(), refusal.place())
}

// What is written of a task, or the refusal.
fn show(rt: &impl Print, task: Task) -> io::Result<()> {
    let mut out = [0u8; MAX_TEXT];
    match task_writer::write(task, &mut out) {
        Ok(n) => rt.write_all(&out[..n]),
        Err(refusal) => print_refusal(rt, refusal),
    }
}

fn report(rt: &impl Print, text: &[u8]) -> io::Result<()> {
    match task_reader::read(text) {
        Ok(task) => {
            println!(rt; "0 0")?;
            show(rt, task)
        }
        Err(refusal) => print_refusal(rt, refusal),
    }
}

// Labels and texts in turn; each ends at a "%" or with the input.
fn report_all(rt: &impl Print, input: &[u8]) -> io::Result<()> {
    let mut is_label = true;
    for piece in input.split_inclusive(|b| *b == b'%') {
        let piece = piece.strip_suffix(b"%").unwrap_or(piece);
        if is_label {
            rt.write_all(piece)?;
            print!(rt; ": ")?;
        } else {
            report(rt, piece)?;
        }
        is_label = !is_label;
    }
    Ok(())
}

// The longest file: all places used, all facts in every list.
fn full() -> Task {
    let all = u64::MAX;
    let action = Action {
        cost: 10_000,
        precondition: all,
        delete: all,
        add: all,
    };
    Task {
        facts: 64,
        initial: all,
        goal: all,
        leader_count: 16,
        follower_count: 32,
        leader: [action; 16],
        follower: [action; 32],
    }
}

// What reading a text gives.
fn print_verdict(rt: &impl Print, text: &[u8]) -> io::Result<()> {
    match task_reader::read(text) {
        Ok(_) => println!(rt; "0 0"),
        Err(refusal) => print_refusal(rt, refusal),
    }
}

// How many bytes are written of a task, and what reading them back gives; or the refusal, and what the output then holds.
fn write_and_read(rt: &impl Print, task: Task, out: &mut [u8]) -> io::Result<()> {
    match task_writer::write(task, out) {
        Ok(n) => {
            println!(rt; "0 {n}")?;
            print!(rt; "read back: ")?;
            print_verdict(rt, &out[..n])
        }
        Err(refusal) => {
            print_refusal(rt, refusal)?;
            rt.write_all(out)?;
            println!(rt)
        }
    }
}

fn main(rt: HostRuntime) -> io::Result<()> {
    let mut input = [0u8; INPUT_BYTES];
    let n = read_full(&mut rt.reader(), &mut input)?;
    report_all(&rt, &input[..n])?;
    let limit = [b'x'; 28_672];
    print!(&rt; "28,672 bytes: ")?;
    report(&rt, &limit)?;
    let beyond = [b'x'; 28_673];
    print!(&rt; "28,673 bytes: ")?;
    report(&rt, &beyond)?;
    let task = full();
    let mut longest = [b'-'; 28_150];
    print!(&rt; "longest file: ")?;
    write_and_read(&rt, task, &mut longest)?;
    let mut small = [b'-'; 4];
    print!(&rt; "4 bytes for the longest file: ")?;
    write_and_read(&rt, task, &mut small)?;
    let mut broken = task;
    broken.facts = 63;
    print!(&rt; "facts=63: ")?;
    write_and_read(&rt, broken, &mut small)
}
