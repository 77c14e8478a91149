// The fields of the record, by lines.
ghost use Rattle.std.specs.Prelude.{◌≡◌, ◌≤◌};
ghost use Rattle.task_format.specs.Fields.{remainder};
ghost use Rattle.task_format.specs.Lines.{Room, part_of, action_of, action_field, field};

use strips::{Action, Task};
use task_format::{Field, Part, field_at};

#[tactic(auto, unfolding(task_format::specs::Lines::part_of))]
fn part_of(action: Action, part: Part) -> u64
    ensures { result ≡ part_of action (remainder part) }
{
    match part {
        Part::Cost => u64::from(action.cost),
        Part::Precondition => action.precondition,
        Part::Delete => action.delete,
        Part::Add => action.add,
    }
}

// A field of the action numbered i, leader before follower.
#[tactic(auto, unfolding(task_format::specs::Lines::action_field))]
fn action_field(task: Task, i: usize, part: Part) -> u64
    requires { Room task i }
    ensures { result ≡ action_field task i (remainder part) }
{
    if i < task.leader_count {
        return part_of(task.leader[i], part);
    }
    part_of(task.follower[i - task.leader_count], part)
}

// The number or the set that the record holds for a line.
#[tactic(auto, unfolding(task_format::specs::Lines::field))]
pub fn field_of(task: Task, line: usize) -> u64
    requires { (1 ≤ line) × Room task (action_of line) }
    ensures { result ≡ field task line }
{
    match field_at(line) {
        Field::Facts => u64::from(task.facts),
        Field::Initial => task.initial,
        Field::Goal => task.goal,
        Field::LeaderCount => task.leader_count as u64,
        Field::FollowerCount => task.follower_count as u64,
        Field::Action(i, part) => action_field(task, i, part),
    }
}
