// Prints on standard output. Functions print, since `Display` and the types are of other crates, so that no `impl` of it may stand here.
use outcome::{Answer, Entry, Refusal};
use std::io;

pub fn print_answer(rt: &impl Print, answer: Answer) -> io::Result<()> {
    match answer {
        Some(minutes) => print!(rt; " answer={}", minutes.0),
        None => print!(rt; " answer=none"),
    }
}

pub fn print_refusal(rt: &impl Print, refusal: Refusal) -> io::Result<()> {
    print!(rt; " refused={} place={}", refusal.number(), refusal.place())
}

fn print_entry(rt: &impl Print, entry: Entry) -> io::Result<()> {
    print!(rt; "  price={}", entry.price.0)?;
    print_answer(rt, entry.answer)?;
    println!(rt;
        " outages={} moves={}",
        entry.leader_steps, entry.follower_steps
    )
}

// Each entry on a line.
pub fn print_entries(rt: &impl Print, entries: &[Entry]) -> io::Result<()> {
    for entry in entries {
        print_entry(rt, *entry)?;
    }
    Ok(())
}

// The numbers of a plan slice, each behind a comma.
pub fn print_numbers(rt: &impl Print, numbers: &[u8]) -> io::Result<()> {
    for number in numbers {
        print!(rt; ",{number}")?;
    }
    Ok(())
}

// The same on a line of its own.
pub fn print_plans(rt: &impl Print, plans: &[u8]) -> io::Result<()> {
    print!(rt; "  plans")?;
    print_numbers(rt, plans)?;
    println!(rt)
}
