// Reports of document 01's worked hall and of tasks with repairs, ties and a cheaper way, in entries, plan slices and texts that
// are just long enough, longer or too short. Every lent place holds something else before, and what the working places hold after
// a call is compared with what they should. What it prints is compared with the file stdout.
#![tactic(auto)]

ghost use Rattle.std.specs.Prelude.{◌≤◌};

use outcome::Refusal;
use questions::Workspace;
use report::{Written, report};
use rows::{BUCKET_WORDS, LINK_WORDS, WORDS};
use std::io;
use strips::Task;
use test_support::{
    action, bare, count, count_rows, free_outage, no_moves, no_outages, other_entry, print_entries,
    print_plans, print_refusal, with_actions, worked,
};

// A function prints, since `Display` and what is printed are of other crates.
fn print_reported(rt: &impl Print, reported: Result<Written, Refusal>) -> io::Result<()> {
    match reported {
        Ok(written) => print!(rt; " entries={} bytes={}", written.entries, written.bytes),
        Err(refusal) => print_refusal(rt, refusal),
    }?;
    println!(rt)
}

// Prints how many places of a slice hold what they should, where these are not all.
fn compare(rt: &impl Print, name: &str, same: usize, places: usize) -> io::Result<()> {
    if same != places {
        println!(rt; "  {name}={same}")?;
    }
    Ok(())
}

// Every working place should hold the number.
fn compare_places(rt: &impl Print, number: u16, work: &Workspace<'_>) -> io::Result<()> {
    let wide = u64::from(number);
    compare(rt, "states", count(work.states, wide), work.states.len())?;
    compare(
        rt,
        "index",
        count_rows(work.index, number),
        work.index.len(),
    )?;
    compare(
        rt,
        "links",
        count_rows(work.links, number),
        work.links.len(),
    )?;
    compare(rt, "rows", count_rows(work.rows, wide), work.rows.len())
}

// One call with room for three entries and so many plan numbers and bytes, and what it leaves in them. The working places hold 5 before, and the number `left`
// after the call. The report of document 01's hall has 5 plan numbers and 118 bytes.
fn lend<const NUMBERS: usize, const BYTES: usize>(
    rt: &impl Print,
    label: &str,
    task: Task,
    left: u16,
) -> io::Result<()>
    requires { (NUMBERS ≤ 8) × (BYTES ≤ 160) }
{
    let mut states = [5u64; 22];
    let mut index = [[5u16; BUCKET_WORDS]; 23];
    let mut links = [[5u16; LINK_WORDS]; 24];
    let mut rows = [[5u64; WORDS]; 25];
    let mut plans = [99u8; NUMBERS];
    let mut text = [b'.'; BYTES];
    let mut entries = [other_entry(); 3];
    let mut work = Workspace {
        states: &mut states,
        index: &mut index,
        links: &mut links,
        rows: &mut rows,
    };
    print!(rt; "{label}:")?;
    let reported = report(task, &mut work, &mut entries, &mut plans, &mut text);
    print_reported(rt, reported)?;
    print_entries(rt, &entries)?;
    compare_places(rt, left, &work)?;
    print_plans(rt, &plans)?;
    rt.write_all(&text)?;
    println!(rt)
}

// More of both than most of the reports have.
fn roomy(rt: &impl Print, label: &str, task: Task) -> io::Result<()> {
    lend::<8, 160>(rt, label, task, 0)
}

fn floor(rt: &impl Print) -> io::Result<()> {
    let task = worked();
    lend::<5, 118>(rt, "the hall", task, 0)?;
    lend::<4, 118>(rt, "4 plan numbers", task, 0)?;
    lend::<5, 117>(rt, "117 bytes", task, 0)?;
    lend::<4, 117>(rt, "4 plan numbers, 117 bytes", task, 0)?;
    roomy(rt, "more of both", task)
}

// Fewer lines than there are entries.
fn fewer_lines(rt: &impl Print) -> io::Result<()> {
    roomy(rt, "first outage at price 0", free_outage())?;
    roomy(rt, "no outages", no_outages())?;
    let mut reached = worked();
    reached.goal = 0;
    roomy(rt, "empty goal", reached)?;
    roomy(rt, "no moves", no_moves())
}

fn no_facts(rt: &impl Print) -> io::Result<()> {
    let mut broken = worked();
    broken.facts = 0;
    lend::<4, 117>(rt, "no facts, 4 plan numbers, 117 bytes", broken, 5)
}

// Three belts, a repair of all of them that costs nothing, and outages that end in the same state or in the same pair.
fn repairs(rt: &impl Print) -> io::Result<()> {
    let mut task = with_actions(
        bare(29, 2),
        &[
            action(3, 4, 4, 0),
            action(2, 8, 8, 0),
            action(5, 12, 12, 0),
            action(4, 16, 16, 0),
            action(0, 0, 32, 28),
            action(3, 4, 4, 32),
        ],
        &[action(1, 5, 1, 2), action(4, 9, 1, 2), action(4, 17, 1, 2)],
    );
    roomy(rt, "repairs, fewer outages", task)?;
    task.leader[2] = action(6, 12, 12, 0);
    roomy(rt, "repairs, smaller first outage", task)?;
    task.follower[2] = action(9, 17, 1, 2);
    roomy(rt, "4 lines", task)
}

// A cheaper way to a state that was met before.
fn met_before(rt: &impl Print) -> io::Result<()> {
    let task = with_actions(
        bare(13, 2),
        &[action(9, 12, 12, 0), action(3, 4, 4, 0), action(3, 8, 8, 0)],
        &[action(1, 5, 1, 2), action(4, 9, 1, 2)],
    );
    lend::<5, 118>(rt, "met before", task, 0)
}

fn main(rt: HostRuntime) -> io::Result<()> {
    floor(&rt)?;
    fewer_lines(&rt)?;
    no_facts(&rt)?;
    repairs(&rt)?;
    met_before(&rt)
}
