// Not for outsiders. The hall file: its limits, what each line is about, its key, and the kind of its value. What a file says is defined in specs/.
#![tactic(auto)]

ghost use Rattle.std.specs.Prelude.{◌≡◌, ◌%◌};
ghost use Rattle.task_format.specs.Fields.{remainder, IsAt};
ghost use Rattle.task_format.specs.Lines.{key_of, kind_of, last_line, Few};

use strips::{MAX_COST, MAX_FACTS, MAX_FOLLOWER, MAX_LEADER, Task};

// Bytes of a text, and digits of a number.
pub const MAX_TEXT: usize = 28_672;

pub const MAX_DIGITS: usize = 5;

// A number between two bounds, or a list of facts of which the last is given.
#[derive(Clone, Copy)]
pub enum Kind {
    Number(u32, u32),
    FactList(u32),
}

// What each of an action's four lines is about, in their order.
#[derive(Clone, Copy)]
pub enum Part {
    Cost,
    Precondition,
    Delete,
    Add,
}

// What a line is about. Actions are counted from 0, the leader's before the follower's.
#[derive(Clone, Copy)]
pub enum Field {
    Facts,
    Initial,
    Goal,
    LeaderCount,
    FollowerCount,
    Action(usize, Part),
}

fn part_at(line: usize) -> Part
    ensures { line % 4 ≡ remainder result }
{
    match line % 4 {
        2 => Part::Cost,
        3 => Part::Precondition,
        0 => Part::Delete,
        _ => Part::Add,
    }
}

pub fn field_at(line: usize) -> Field
    ensures { IsAt result line }
{
    match line {
        1 => Field::Facts,
        2 => Field::Initial,
        3 => Field::Goal,
        4 => Field::LeaderCount,
        5 => Field::FollowerCount,
        _ => Field::Action(line.saturating_sub(6) / 4, part_at(line)),
    }
}

// The key of a line, with its "=".
#[tactic(auto, unfolding(crate::specs::Lines::key_of, crate::specs::Lines::action_key))]
pub fn key_of(line: usize) -> &'static [u8]
    ensures { result.now ≡ key_of line }
{
    match field_at(line) {
        Field::Facts => b"facts=",
        Field::Initial => b"start=",
        Field::Goal => b"goal=",
        Field::LeaderCount => b"outages=",
        Field::FollowerCount => b"moves=",
        Field::Action(_, Part::Cost) => b"cost=",
        Field::Action(_, Part::Precondition) => b"needs=",
        Field::Action(_, Part::Delete) => b"drops=",
        Field::Action(_, Part::Add) => b"gives=",
    }
}

// The kind of the value at a line, in a file with so many facts.
#[tactic(auto, unfolding(crate::specs::Lines::kind_of))]
pub fn kind_of(line: usize, facts: u32) -> Kind
    ensures { result ≡ kind_of facts line }
{
    match field_at(line) {
        Field::Facts => Kind::Number(1, MAX_FACTS),
        Field::Initial | Field::Goal => Kind::FactList(facts),
        Field::LeaderCount => Kind::Number(0, MAX_LEADER as u32),
        Field::FollowerCount => Kind::Number(0, MAX_FOLLOWER as u32),
        Field::Action(_, part) => match part {
            Part::Cost => Kind::Number(0, MAX_COST),
            Part::Precondition | Part::Delete | Part::Add => Kind::FactList(facts),
        },
    }
}

// The last line that is due, once the counts are known.
pub fn last_line(task: Task) -> usize
    requires { Few task }
    ensures { result ≡ last_line task }
{
    5 + 4 * (task.leader_count + task.follower_count)
}
