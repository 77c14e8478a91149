// Tasks, and what is in lent places before a call.
ghost use Rattle.std.specs.Prelude.{◌≡◌, ◌≤◌, ◌++◌, length, drop};
ghost use Rattle.strips.specs.Limits.{max_leader, max_follower};
ghost use Rattle.test_support.specs.Tasks.{act, bare_task, with_actions, worked_hall, free_hall, calm_hall, stuck_hall, other_entry};

use outcome::{Entry, Minutes, Price};
use strips::{Action, Task};

pub fn action(cost: u32, precondition: u64, delete: u64, add: u64) -> Action
    ensures { result ≡ act cost precondition delete add }
{
    Action {
        cost,
        precondition,
        delete,
        add,
    }
}

// A task with facts 1 to 6 and no actions.
#[tactic(auto, using(strips::specs::Laws::Zeros::default_zeros))]
pub fn bare(initial: u64, goal: u64) -> Task
    ensures { result ≡ bare_task initial goal }
{
    Task {
        facts: 6,
        initial,
        goal,
        ..Task::default()
    }
}

// Puts actions into the first places.
fn put_actions(places: &mut [Action], actions: &[Action])
    requires { length actions.now ≤ length places.old }
    ensures { places.new ≡ actions.now ++ drop (length actions.now) places.old }
{
    places[..actions.len()].copy_from_slice(actions);
}

// The task with these actions in place of its own.
pub fn with_actions(task: Task, leader: &[Action], follower: &[Action]) -> Task
    requires { (length leader.now ≤ max_leader) × (length follower.now ≤ max_follower) }
    ensures { result ≡ with_actions task leader.now follower.now }
{
    let mut acting = bare(task.initial, task.goal);
    acting.facts = task.facts;
    acting.leader_count = leader.len();
    acting.follower_count = follower.len();
    put_actions(&mut acting.leader, leader);
    put_actions(&mut acting.follower, follower);
    acting
}

// Document 01's hall: 1 tray in the house, 2 tray at the dock, 3 upper belt runs, 4 lower belt runs.
pub fn worked() -> Task
    ensures { result ≡ worked_hall }
{
    let mut hall = bare(13, 2);
    hall.facts = 4;
    with_actions(
        hall,
        &[action(2, 4, 4, 0), action(5, 8, 8, 0)],
        &[action(3, 5, 1, 2), action(7, 9, 1, 2)],
    )
}

// The hall with a first outage that costs nothing.
pub fn free_outage() -> Task
    ensures { result ≡ free_hall }
{
    with_actions(
        worked(),
        &[action(0, 4, 4, 0), action(5, 8, 8, 0)],
        &[action(3, 5, 1, 2), action(7, 9, 1, 2)],
    )
}

// The hall without outages.
pub fn no_outages() -> Task
    ensures { result ≡ calm_hall }
{
    with_actions(worked(), &[], &[action(3, 5, 1, 2), action(7, 9, 1, 2)])
}

// The hall without moves.
pub fn no_moves() -> Task
    ensures { result ≡ stuck_hall }
{
    with_actions(worked(), &[action(2, 4, 4, 0), action(5, 8, 8, 0)], &[])
}

// What an entry holds before a call.
pub fn other_entry() -> Entry
    ensures { result ≡ other_entry }
{
    Entry {
        price: Price(77),
        answer: Some(Minutes(66)),
        leader_steps: 55,
        follower_steps: 44,
    }
}
