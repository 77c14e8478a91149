// Fronts of document 01's worked hall, of tasks like it and of one with a long detour, all with lent slices and entries that hold
// other numbers before, and what is left in every lent place. What it prints is compared with the file stdout.
#![tactic(auto)]

ghost use Rattle.std.specs.Prelude.{◌≤◌};

use front::front;
use outcome::Refusal;
use questions::Workspace;
use rows::{BUCKET_WORDS, LINK_WORDS, WORDS};
use std::io;
use strips::Task;
use test_support::{
    action, bare, count, count_rows, free_outage, no_moves, no_outages, other_entry, print_entries,
    print_plans, print_refusal, with_actions, worked,
};

// A function prints, since `Display` and what is printed are of other crates.
fn print_fronted(rt: &impl Print, fronted: Result<usize, Refusal>) -> io::Result<()> {
    match fronted {
        Ok(count) => print!(rt; " entries={count}"),
        Err(refusal) => print_refusal(rt, refusal),
    }?;
    println!(rt)
}

// How many places of each working slice hold a number.
fn print_places(rt: &impl Print, number: u16, work: &Workspace<'_>) -> io::Result<()> {
    let states = count(work.states, u64::from(number));
    let index = count_rows(work.index, number);
    let links = count_rows(work.links, number);
    let rows = count_rows(work.rows, u64::from(number));
    println!(rt; ",{states},{index},{links},{rows}")
}

// One call with the first `room` of three entries lent, and what it leaves: all three, the plan slice, and how many places of each working slice are clear, or
// hold 5 as before the call.
fn list(
    rt: &impl Print,
    label: &str,
    task: Task,
    work: &mut Workspace<'_>,
    room: usize,
    plans: &mut [u8],
) -> io::Result<()>
    requires { room ≤ 3 }
{
    print!(rt; "{label}:")?;
    let mut entries = [other_entry(); 3];
    let fronted = front(task, work, &mut entries[..room], plans);
    print_fronted(rt, fronted)?;
    print_entries(rt, &entries)?;
    print_plans(rt, plans)?;
    print!(rt; "  clear")?;
    print_places(rt, 0, work)?;
    print!(rt; "  as before")?;
    print_places(rt, 5, work)
}

// So many rows, entries and plan numbers are lent, and 7 places and more of the other slices. Document 01's hall needs 7, 3 and 5.
fn list_with<const PLACES: usize, const ENTRIES: usize, const NUMBERS: usize>(
    rt: &impl Print,
    label: &str,
    task: Task,
) -> io::Result<()>
    requires { (PLACES ≤ 7) × (ENTRIES ≤ 3) × (NUMBERS ≤ 5) }
{
    let mut states = [5u64; 7];
    let mut index = [[5u16; BUCKET_WORDS]; 8];
    let mut links = [[5u16; LINK_WORDS]; 9];
    let mut rows = [[5u64; WORDS]; PLACES];
    let mut plans = [99u8; NUMBERS];
    let mut work = Workspace {
        states: &mut states,
        index: &mut index,
        links: &mut links,
        rows: &mut rows,
    };
    list(rt, label, task, &mut work, ENTRIES, &mut plans)
}

// As many places as the long detour has states, or more.
fn wide(rt: &impl Print, label: &str, task: Task, plans: &mut [u8]) -> io::Result<()> {
    let mut states = [5u64; 64];
    let mut index = [[5u16; BUCKET_WORDS]; 65];
    let mut links = [[5u16; LINK_WORDS]; 66];
    let mut rows = [[5u64; WORDS]; 67];
    let mut work = Workspace {
        states: &mut states,
        index: &mut index,
        links: &mut links,
        rows: &mut rows,
    };
    list(rt, label, task, &mut work, 3, plans)
}

fn floor(rt: &impl Print) -> io::Result<()> {
    let task = worked();
    list_with::<7, 3, 5>(rt, "the hall", task)?;
    list_with::<6, 3, 5>(rt, "6 places", task)?;
    list_with::<0, 3, 5>(rt, "no place", task)?;
    list_with::<7, 2, 5>(rt, "2 entries", task)?;
    list_with::<7, 3, 4>(rt, "4 plan numbers", task)?;
    let mut reached = worked();
    reached.goal = 0;
    list_with::<7, 3, 5>(rt, "empty goal", reached)
}

// Two lines, and one plan number less.
fn free_first(rt: &impl Print) -> io::Result<()> {
    let free = free_outage();
    list_with::<7, 2, 4>(rt, "first outage at price 0", free)?;
    list_with::<7, 2, 3>(rt, "first outage at price 0, 3 plan numbers", free)
}

// Actions are left out.
fn fewer_actions(rt: &impl Print) -> io::Result<()> {
    list_with::<7, 3, 5>(rt, "no outages", no_outages())?;
    list_with::<7, 3, 5>(rt, "no moves", no_moves())
}

// Of several questions that get no, the first is named.
fn refusals(rt: &impl Print) -> io::Result<()> {
    let mut broken = worked();
    broken.facts = 0;
    list_with::<7, 3, 5>(rt, "no facts", broken)?;
    list_with::<0, 3, 5>(rt, "no facts, no place", broken)?;
    list_with::<6, 3, 5>(rt, "no facts, 6 places", broken)?;
    list_with::<6, 2, 4>(rt, "6 places, 2 entries, 4 plan numbers", worked())?;
    list_with::<7, 2, 4>(rt, "2 entries, 4 plan numbers", worked())
}

// The outage needs fact 5, which only a move gives.
fn after_a_move(rt: &impl Print) -> io::Result<()> {
    let task = with_actions(
        bare(13, 2),
        &[action(1, 16, 12, 0)],
        &[action(1, 5, 1, 2), action(0, 0, 0, 16)],
    );
    list_with::<7, 3, 5>(rt, "outage after a move", task)
}

// Without the belt, fact 11, a counter of 5 bits has to go down: facts 6 to 10 are its bits, facts 1 to 5 say that a bit is not set.
fn long_detour(rt: &impl Print) -> io::Result<()> {
    let mut belt = bare(2016, 31);
    belt.facts = 11;
    let task = with_actions(
        belt,
        &[action(3, 1024, 1024, 0)],
        &[
            action(10_000, 32, 32, 1),
            action(10_000, 65, 65, 34),
            action(10_000, 131, 131, 100),
            action(10_000, 263, 263, 232),
            action(10_000, 527, 527, 496),
            action(9, 1024, 992, 31),
        ],
    );
    let mut plans = [99u8; 33];
    wide(rt, "31 moves", task, &mut plans)?;
    wide(
        rt,
        "more places, longer plans before",
        free_outage(),
        &mut plans,
    )
}

fn main(rt: HostRuntime) -> io::Result<()> {
    floor(&rt)?;
    free_first(&rt)?;
    fewer_actions(&rt)?;
    refusals(&rt)?;
    after_a_move(&rt)?;
    long_detour(&rt)
}
