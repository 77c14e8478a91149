// Reads a hall file: the questions about a text, and the task that it says.
#![tactic(auto)]

mod fields;
mod line;

ghost use Rattle.std.specs.Prelude.{◌≡◌};
ghost use Rattle.task_format.specs.Parse.{parse};
ghost use Rattle.task_reader.specs.Reading.{returned};

use line::read_lines;
use outcome::Refusal;
use strips::Task;
use task_format::MAX_TEXT;

// The task that a text says, or the first question that gets no.
#[tactic(auto, using(task_format::specs::Laws::Parse::parse_long, task_format::specs::Laws::Parse::parse_lines))]
pub fn read(text: &[u8]) -> Result<Task, Refusal>
    ensures { returned result ≡ parse text.now }
{
    if MAX_TEXT < text.len() {
        return Err(Refusal::TextTooLong);
    }
    read_lines(text)
}
