// Best responses on document 01's worked hall and on tasks with detours, loops and ties, all with lent slices that hold other
// numbers before. What it prints is compared with the file stdout.
#![tactic(auto)]

ghost use Rattle.std.specs.Prelude.{◌≤◌};

use outcome::Refusal;
use planner::{Answered, best_response};
use questions::Workspace;
use rows::{BUCKET_WORDS, LINK_WORDS, WORDS};
use std::io;
use strips::Task;
use test_support::{
    action, bare, count, count_rows, print_answer, print_numbers, print_refusal, with_actions,
    worked,
};

// What the working slices hold before a call.
const STATE: u64 = 9;

const BUCKET: u16 = 8;

const LINK: u16 = 7;

const ROW: u64 = 6;

// A function prints, since `Display` and what is printed are of other crates.
fn print_answered(rt: &impl Print, answered: Result<Answered, Refusal>) -> io::Result<()> {
    match answered {
        Ok(found) => {
            print_answer(rt, found.answer)?;
            print!(rt; " steps={}", found.steps)
        }
        Err(refusal) => print_refusal(rt, refusal),
    }
}

// How many places of each working slice are zero, and how many hold what they held before.
fn print_left(rt: &impl Print, work: &Workspace<'_>) -> io::Result<()> {
    print!(rt;
        " zeros states={} index={} links={} rows={}",
        count(work.states, 0),
        count_rows(work.index, 0),
        count_rows(work.links, 0),
        count_rows(work.rows, 0)
    )?;
    println!(rt;
        " untouched states={} index={} links={} rows={}",
        count(work.states, STATE),
        count_rows(work.index, BUCKET),
        count_rows(work.links, LINK),
        count_rows(work.rows, ROW)
    )
}

fn respond(
    rt: &impl Print,
    label: &str,
    task: Task,
    leader_plan: &[u8],
    work: &mut Workspace<'_>,
    plan: &mut [u8],
) -> io::Result<()> {
    print!(rt; "{label}:")?;
    let answered = best_response(task, leader_plan, work, plan);
    print_answered(rt, answered)?;
    print!(rt; " plan")?;
    print_numbers(rt, plan)?;
    print_left(rt, work)
}

// Slices of 7 places and more, which is document 01's reach, but for two whose places are named, and 3 places for the plan.
fn tight<const STATES: usize, const ROWS: usize>(
    rt: &impl Print,
    label: &str,
    task: Task,
    leader_plan: &[u8],
) -> io::Result<()>
    requires { (STATES ≤ 7) × (ROWS ≤ 7) }
{
    let mut states = [STATE; STATES];
    let mut index = [[BUCKET; BUCKET_WORDS]; 8];
    let mut links = [[LINK; LINK_WORDS]; 9];
    let mut rows = [[ROW; WORDS]; ROWS];
    let mut plan = [99u8; 3];
    let mut work = Workspace {
        states: &mut states,
        index: &mut index,
        links: &mut links,
        rows: &mut rows,
    };
    respond(rt, label, task, leader_plan, &mut work, &mut plan)
}

// More places than most of the tasks need, and so many places for the plan.
fn roomy<const STEPS: usize>(
    rt: &impl Print,
    label: &str,
    task: Task,
    leader_plan: &[u8],
) -> io::Result<()>
    requires { STEPS ≤ 3 }
{
    let mut states = [STATE; 64];
    let mut index = [[BUCKET; BUCKET_WORDS]; 67];
    let mut links = [[LINK; LINK_WORDS]; 66];
    let mut rows = [[ROW; WORDS]; 65];
    let mut plan = [99u8; STEPS];
    let mut work = Workspace {
        states: &mut states,
        index: &mut index,
        links: &mut links,
        rows: &mut rows,
    };
    respond(rt, label, task, leader_plan, &mut work, &mut plan)
}

// A task without actions: fact 1 is there at first, fact 6 is the goal.
fn open_task() -> Task {
    bare(1, 32)
}

fn floor(rt: &impl Print) -> io::Result<()> {
    let task = worked();
    tight::<7, 7>(rt, "no outage", task, &[])?;
    tight::<7, 7>(rt, "outage 1", task, &[1])?;
    tight::<7, 7>(rt, "outage 2", task, &[2])?;
    tight::<7, 7>(rt, "outages 1 2", task, &[1, 2])?;
    tight::<6, 7>(rt, "6 places for states", task, &[])?;
    tight::<7, 6>(rt, "6 rows", task, &[])?;
    roomy::<3>(rt, "no outage, more places", task, &[])?;
    roomy::<3>(rt, "no moves", open_task(), &[])?;
    let mut free = worked();
    free.goal = 0;
    roomy::<3>(rt, "empty goal", free, &[1])
}

fn refusals(rt: &impl Print) -> io::Result<()> {
    let task = worked();
    tight::<7, 0>(rt, "no rows", task, &[9])?;
    let mut broken = worked();
    broken.facts = 0;
    tight::<7, 7>(rt, "no facts", broken, &[9])?;
    tight::<7, 7>(rt, "outage 3", task, &[1, 3])?;
    tight::<7, 7>(rt, "outages 1 1", task, &[1, 1])?;
    tight::<7, 6>(rt, "outages 2 2, 6 rows", task, &[2, 2])
}

// The direct way costs 100; the way over facts 2 and 3 costs 90.
fn detour(rt: &impl Print) -> io::Result<()> {
    let mut task = with_actions(
        open_task(),
        &[],
        &[
            action(100, 1, 0, 32),
            action(30, 1, 1, 2),
            action(30, 2, 2, 4),
            action(30, 4, 4, 32),
        ],
    );
    roomy::<3>(rt, "cheaper detour", task, &[])?;
    roomy::<2>(rt, "cheaper detour, 2 places", task, &[])?;
    task.follower[3] = action(40, 4, 4, 32);
    roomy::<3>(rt, "as dear a detour", task, &[])?;
    task.follower[3] = action(41, 4, 4, 32);
    roomy::<3>(rt, "dearer detour", task, &[])?;
    task.follower[0] = action(100, 16, 0, 32);
    roomy::<3>(rt, "only the detour", task, &[])?;
    task.follower[3] = action(41, 20, 4, 32);
    roomy::<3>(rt, "no way", task, &[])
}

// A cheaper way to a state that was met before.
fn met_before(rt: &impl Print) -> io::Result<()> {
    let task = with_actions(
        open_task(),
        &[],
        &[
            action(9, 1, 1, 2),
            action(2, 1, 1, 4),
            action(3, 4, 4, 2),
            action(1, 2, 2, 32),
        ],
    );
    roomy::<3>(rt, "met before", task, &[])
}

// Actions that cost nothing and lead round in circles.
fn loops(rt: &impl Print) -> io::Result<()> {
    let mut task = with_actions(
        open_task(),
        &[],
        &[
            action(0, 1, 1, 2),
            action(0, 2, 2, 1),
            action(0, 2, 2, 4),
            action(0, 4, 4, 1),
            action(0, 4, 0, 32),
        ],
    );
    roomy::<3>(rt, "free loops", task, &[])?;
    task.follower[4] = action(0, 0, 0, 0);
    roomy::<3>(rt, "free loops, no way", task, &[])
}

// Ways of one cost; of one cost and as many steps.
fn ties(rt: &impl Print) -> io::Result<()> {
    let mut task = with_actions(
        open_task(),
        &[],
        &[
            action(5, 1, 1, 2),
            action(5, 2, 2, 32),
            action(10, 1, 1, 32),
            action(5, 1, 1, 4),
            action(5, 4, 4, 32),
        ],
    );
    roomy::<3>(rt, "fewer steps", task, &[])?;
    task.follower[2] = action(11, 1, 1, 32);
    roomy::<3>(rt, "smaller first step", task, &[])?;
    task.follower[0] = action(5, 1, 1, 4);
    task.follower[1] = action(5, 4, 4, 48);
    task.follower[3] = action(5, 1, 1, 2);
    task.follower[4] = action(5, 2, 2, 32);
    roomy::<3>(rt, "smaller first step, other end state", task, &[])?;
    task.follower[4] = action(5, 4, 4, 32);
    roomy::<3>(rt, "smaller last step", task, &[])
}

// A counter of 8 bits that goes down: facts 9 to 16 are its bits, facts 1 to 8 say that a bit is not set. Its one plan has 255 steps.
fn counter() -> Task {
    let mut bits = bare(65280, 255);
    bits.facts = 16;
    with_actions(
        bits,
        &[],
        &[
            action(10_000, 256, 256, 1),
            action(10_000, 513, 513, 258),
            action(10_000, 1027, 1027, 772),
            action(10_000, 2055, 2055, 1800),
            action(10_000, 4111, 4111, 3856),
            action(10_000, 8223, 8223, 7968),
            action(10_000, 16447, 16447, 16192),
            action(10_000, 32895, 32895, 32640),
        ],
    )
}

// As many places as the counter has states, but for links and a plan that the caller lends.
fn count_down(
    rt: &impl Print,
    label: &str,
    task: Task,
    links: &mut [[u16; LINK_WORDS]],
    plan: &mut [u8],
) -> io::Result<()> {
    let mut states = [STATE; 256];
    let mut index = [[BUCKET; BUCKET_WORDS]; 256];
    let mut rows = [[ROW; WORDS]; 256];
    let mut work = Workspace {
        states: &mut states,
        index: &mut index,
        links,
        rows: &mut rows,
    };
    let answered = best_response(task, &[], &mut work, plan);
    print!(rt; "{label}:")?;
    print_answered(rt, answered)?;
    print_left(rt, &work)
}

// The second call is lent the plan slice as the first has left it, and the third the links.
fn long_way(rt: &impl Print) -> io::Result<()> {
    let task = counter();
    let mut links = [[LINK; LINK_WORDS]; 256];
    let mut plan = [99u8; 255];
    count_down(rt, "255 steps", task, &mut links, &mut plan)?;
    let mut fewer = [[LINK; LINK_WORDS]; 255];
    count_down(rt, "255 steps, 255 places", task, &mut fewer, &mut plan)?;
    let mut short = [99u8; 254];
    count_down(rt, "255 steps, plan of 254", task, &mut links, &mut short)
}

fn main(rt: HostRuntime) -> io::Result<()> {
    floor(&rt)?;
    refusals(&rt)?;
    detour(&rt)?;
    met_before(&rt)?;
    loops(&rt)?;
    ties(&rt)?;
    long_way(&rt)
}
