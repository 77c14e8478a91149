// The lines of a task, written.
ghost use Rattle.std.specs.Prelude.{◌≤◌};
ghost use Rattle.task_format.specs.Lines.{last_line};
ghost use Rattle.task_format.specs.Render.{value_text, render};
ghost use Rattle.task_format.specs.Value.{OfKind, Modest};
ghost use Rattle.text_output.specs.Puts.{HasRoom, Puts};
ghost use Rattle.task_writer.specs.Puts.{ended_line};

use crate::fields::field_of;
use crate::numbers::put_list;
use strips::ValidTask;
use task_format::{Kind, key_of, kind_of, last_line};
use text_output::Output;

#[tactic(auto, using(crate::specs::Laws::Puts::five_digits), unfolding(task_format::specs::Render::value_text))]
fn put_value(out: &mut Output<'_>, kind: Kind, x: u64)
    requires { Modest kind × OfKind kind x × HasRoom (value_text kind x) out.old }
    ensures { Puts (value_text kind x) out.old out.new }
{
    match kind {
        Kind::Number(_, _) => out.put_digits(x as u32),
        Kind::FactList(most) => put_list(out, most, x),
    }
}

fn put_line(out: &mut Output<'_>, task: ValidTask, line: usize)
    requires { (1 ≤ line) × (line ≤ last_line task) × HasRoom (ended_line task line) out.old }
    ensures { Puts (ended_line task line) out.old out.new }
{
    let task = task.task();
    out.put_bytes(key_of(line));
    put_value(out, kind_of(line, task.facts), field_of(*task, line));
    out.put_byte(b'\n');
}

// The text of a valid task.
pub fn put_lines(out: &mut Output<'_>, task: ValidTask)
    requires { HasRoom (render task) out.old }
    ensures { Puts (render task) out.old out.new }
{
    for line in 1..=last_line(*task.task()) {
        put_line(out, task, line);
    }
}
