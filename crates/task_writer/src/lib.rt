// Writes a hall file: questions 9 and 16, and the text of a task.
#![tactic(auto)]

mod fields;
mod lines;
mod numbers;

ghost use Rattle.std.specs.Prelude.{◌≡◌, ◌≤◌, length};
ghost use Rattle.task_format.specs.Render.{render};
ghost use Rattle.task_writer.specs.Written.{over, Wrote};

use lines::put_lines;
use outcome::Refusal;
use strips::{Task, ValidTask};
use task_format::MAX_TEXT;
use text_output::put_in;

// The text of a valid task at the front of a slice, and how many bytes it has.
#[tactic(auto, using(text_output::specs::Laws::Puts::put_over))]
fn write_text(task: ValidTask, text: &mut [u8]) -> usize
    requires { length (render task) ≤ length text.old }
    ensures bytes { result ≡ length (render task) }
    ensures text { text.new ≡ over (render task) text.old }
{
    put_in(text, |out| put_lines(out, task))
}

// The text of a task in the first bytes of `out`, and how many they are, or the question that got no. After a refusal `out` is as it was.
pub fn write(task: Task, out: &mut [u8]) -> Result<usize, Refusal>
    ensures { Wrote task out.old out.new result }
{
    let task = ValidTask::new(task).ok_or(Refusal::InvalidTask)?;
    // The text is made first, in bytes of its own: where it does not fit, nothing lent is written.
    let mut text = [0u8; MAX_TEXT];
    let n = write_text(task, &mut text);
    if out.len() < n {
        return Err(Refusal::OutputTooLong);
    }
    out[..n].copy_from_slice(&text[..n]);
    Ok(n)
}
