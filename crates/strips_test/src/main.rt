// Replays on document 01's worked hall and on records that break a rule, and the smaller of two plans.
// What it prints is compared with the file stdout.
#![tactic(auto)]

use replay::Ended;
use std::io;
use strips::Task;
use test_support::{action, print_numbers, print_refusal, worked};

// A function prints, since `Display` and what is printed are of other crates.
fn print_ended(rt: &impl Print, end: Ended) -> io::Result<()> {
    let goal = u8::from(end.goal);
    print!(rt;
        " price={} minutes={} state={} goal={goal}",
        end.price.0, end.minutes.0, end.state
    )
}

fn replay(
    rt: &impl Print,
    label: &str,
    task: Task,
    leader_plan: &[u8],
    follower_plan: &[u8],
) -> io::Result<()> {
    print!(rt; "{label}:")?;
    match replay::replay(task, leader_plan, follower_plan) {
        Ok(end) => print_ended(rt, end),
        Err(refusal) => print_refusal(rt, refusal),
    }?;
    println!(rt)
}

fn plans(rt: &impl Print) -> io::Result<()> {
    let task = worked();
    replay(rt, "nothing", task, &[], &[])?;
    replay(rt, "move 1", task, &[], &[1])?;
    replay(rt, "outage 1, move 2", task, &[1], &[2])?;
    replay(rt, "outages 1 2", task, &[1, 2], &[])?;
    replay(rt, "outages 2 1", task, &[2, 1], &[])?;
    replay(rt, "moves 1 1", task, &[], &[1, 1])?;
    replay(rt, "outages 1 1", task, &[1, 1], &[])?;
    replay(rt, "outage 1, move 1", task, &[1], &[1])?;
    replay(rt, "outages 1 2, moves 2", task, &[1, 2], &[2])
}

fn numbers(rt: &impl Print) -> io::Result<()> {
    let task = worked();
    replay(rt, "outage 0", task, &[0], &[])?;
    replay(rt, "outage 3", task, &[1, 3], &[])?;
    replay(rt, "move 0", task, &[1], &[2, 0])?;
    replay(rt, "move 33", task, &[1, 2], &[33])?;
    replay(rt, "move 255", task, &[], &[255])?;
    replay(rt, "moves 1 1 9", task, &[], &[1, 1, 9])?;
    replay(rt, "outages 1 1, move 9", task, &[1, 1], &[9])
}

// A task whose one move changes nothing, so that plans of any length run.
fn patient() -> Task {
    let mut task = worked();
    task.follower[0] = action(10_000, 0, 0, 0);
    task.leader[0] = action(10_000, 0, 0, 0);
    task
}

fn lengths(rt: &impl Print) -> io::Result<()> {
    let task = patient();
    let longest = [1u8; 32767];
    let too_long = [1u8; 32768];
    replay(rt, "longest outages", task, &longest, &[])?;
    replay(rt, "longest moves", task, &[], &longest)?;
    replay(rt, "outages too long", task, &too_long, &[])?;
    replay(rt, "moves too long", task, &[], &too_long)?;
    replay(rt, "too long, and no action", task, &too_long, &[9])
}

// A fact that an action deletes and adds is there afterwards.
fn overlap(rt: &impl Print) -> io::Result<()> {
    let mut task = worked();
    task.follower[0] = action(1, 0, 3, 2);
    replay(rt, "delete and add of one fact", task, &[], &[1])?;
    task.facts = 64;
    task.goal = 9_223_372_036_854_775_808;
    task.follower[1] = action(10_000, 0, 13, 9_223_372_036_854_775_808);
    replay(rt, "fact 64", task, &[], &[2])
}

fn invalid_sizes(rt: &impl Print) -> io::Result<()> {
    let mut task = worked();
    task.facts = 0;
    replay(rt, "no facts", task, &[], &[])?;
    task.facts = 65;
    replay(rt, "65 facts", task, &[], &[])?;
    task = worked();
    task.leader_count = 17;
    replay(rt, "17 outages", task, &[], &[])?;
    task = worked();
    task.follower_count = 33;
    replay(rt, "33 moves", task, &[], &[])
}

fn invalid_sets(rt: &impl Print) -> io::Result<()> {
    let mut task = worked();
    task.initial = 16;
    replay(rt, "start fact 5 of 4", task, &[], &[])?;
    task = worked();
    task.goal = 16;
    replay(rt, "goal fact 5 of 4", task, &[], &[])?;
    task = worked();
    task.leader[1] = action(5, 16, 0, 0);
    replay(rt, "needs fact 5 of 4", task, &[], &[])?;
    task.leader[1] = action(5, 0, 16, 0);
    replay(rt, "drops fact 5 of 4", task, &[], &[])?;
    task.leader[1] = action(5, 0, 0, 16);
    replay(rt, "gives fact 5 of 4", task, &[], &[])?;
    task = worked();
    task.follower[1] = action(7, 0, 0, 16);
    replay(rt, "move gives fact 5 of 4", task, &[], &[])
}

fn invalid_places(rt: &impl Print) -> io::Result<()> {
    let mut task = worked();
    task.leader[0] = action(10_001, 4, 4, 0);
    replay(rt, "price 10001", task, &[], &[])?;
    task = worked();
    task.follower[0] = action(10_001, 5, 1, 2);
    replay(rt, "minutes 10001", task, &[], &[])?;
    task = worked();
    task.leader[2] = action(1, 0, 0, 0);
    replay(rt, "unused outage with a price", task, &[], &[])?;
    task = worked();
    task.leader[15] = action(0, 0, 0, 1);
    replay(rt, "unused outage that gives", task, &[], &[])?;
    task = worked();
    task.follower[31] = action(0, 1, 0, 0);
    replay(rt, "unused move that needs", task, &[], &[])?;
    task.follower[31] = action(0, 0, 1, 0);
    replay(
        rt,
        "unused move that drops, and no action",
        task,
        &[9],
        &[9],
    )
}

fn smaller(rt: &impl Print, label: &str, p: &[u8], q: &[u8]) -> io::Result<()> {
    print!(rt; "{label}:")?;
    print_numbers(rt, strips::smaller(p, q))?;
    println!(rt)
}

fn main(rt: HostRuntime) -> io::Result<()> {
    plans(&rt)?;
    numbers(&rt)?;
    lengths(&rt)?;
    overlap(&rt)?;
    invalid_sizes(&rt)?;
    invalid_sets(&rt)?;
    invalid_places(&rt)?;
    smaller(&rt, "fewer steps", &[2, 1], &[9])?;
    smaller(&rt, "first difference", &[2, 1, 9], &[2, 3, 1])?;
    smaller(&rt, "second smaller", &[2, 3, 1], &[2, 1, 9])?;
    smaller(&rt, "empty", &[1], &[])
}
