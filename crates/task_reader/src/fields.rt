// The fields of the record, by lines.
ghost use Rattle.std.specs.Prelude.{◌≡◌, ◌≤◌};
ghost use Rattle.strips.specs.Limits.{max_cost};
ghost use Rattle.task_format.specs.Fields.{remainder};
ghost use Rattle.task_format.specs.Lines.{Room, with_part, with_action, stored};
ghost use Rattle.task_reader.specs.Line.{Storable};

use strips::{Action, Task};
use task_format::{Field, Part, field_at};

#[tactic(auto, unfolding(task_format::specs::Lines::with_part))]
fn store_part(action: &mut Action, part: Part, x: u64)
    requires { remainder part ≡ 2 → x ≤ max_cost }
    ensures { action.new ≡ with_part action.old (remainder part) x }
{
    match part {
        Part::Cost => action.cost = x as u32,
        Part::Precondition => action.precondition = x,
        Part::Delete => action.delete = x,
        Part::Add => action.add = x,
    }
}

// Stores x in a field of the action numbered i, leader before follower.
#[tactic(auto, unfolding(task_format::specs::Lines::with_action))]
fn store_action(task: &mut Task, i: usize, part: Part, x: u64)
    requires { Room task.old i × (remainder part ≡ 2 → x ≤ max_cost) }
    ensures { task.new ≡ with_action task.old i (remainder part) x }
{
    if i < task.leader_count {
        store_part(&mut task.leader[i], part, x);
        return;
    }
    store_part(&mut task.follower[i - task.leader_count], part, x);
}

// Stores x in the field of a line.
#[tactic(auto, unfolding(task_format::specs::Lines::stored, task_format::specs::Lines::kind_of))]
pub fn store(task: &mut Task, line: usize, x: u64)
    requires { Storable task.old line x }
    ensures { task.new ≡ stored task.old line x }
{
    match field_at(line) {
        Field::Facts => task.facts = x as u32,
        Field::Initial => task.initial = x,
        Field::Goal => task.goal = x,
        Field::LeaderCount => task.leader_count = x as usize,
        Field::FollowerCount => task.follower_count = x as usize,
        Field::Action(i, part) => store_action(task, i, part, x),
    }
}
