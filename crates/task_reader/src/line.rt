// The lines of a text, one after the other.
ghost use Rattle.std.specs.Prelude.{◌≡◌, ℕ, ◌≤◌, IfOk, IfErr, IfSome, IfNone};
ghost use Rattle.strips.specs.Limits.{max_facts};
ghost use Rattle.task_format.specs.Parse.{follow, zeros};
ghost use Rattle.task_format.specs.Text.{first_line, behind_line, lines};
ghost use Rattle.task_format.specs.Value.{InForm};
ghost use Rattle.task_reader.specs.Cut.{Adds};
ghost use Rattle.task_reader.specs.Line.{Says, Stops};
ghost use Rattle.task_reader.specs.Reading.{returned};

use crate::fields::store;
use outcome::Refusal;
use strips::Task;
use task_format::{Kind, MAX_DIGITS, key_of, kind_of, last_line};
use value_reader::read_value;

// How many digits of a number a value ends in with one byte more; none where no such byte may stand there: at its end, or where question 4 gets no.
fn digits_with(kind: Kind, digits: usize, byte: u8) -> Option<usize>
    ensures some { IfSome result (Adds kind digits byte) }
    ensures none { IfNone result ((n : ℕ) → Adds kind digits byte n → ⊥) }
{
    if byte.is_ascii_digit() && digits < MAX_DIGITS {
        return Some(digits + 1);
    }
    match kind {
        Kind::FactList(_) if byte == b',' => Some(0),
        _ => None,
    }
}

// The value at the front of a text, up to the end of its line, and the text behind that line. None at the first byte that shows that question 4 gets no: what
// stands behind it is not looked at.
fn cut(text: &[u8], kind: Kind) -> Option<(&[u8], &[u8])>
    ensures some { IfSome result (λ r. (r.0.now ≡ first_line text.now) × (r.1.now ≡ behind_line text.now)) }
    ensures none { IfNone result (InForm kind (first_line text.now) → ⊥) }
{
    let mut digits = 0;
    for (i, byte) in text.iter().enumerate() {
        let Some(more) = digits_with(kind, digits, *byte) else {
            if *byte == b'\n' {
                return Some((&text[..i], &text[i + 1..]));
            }
            return None;
        };
        digits = more;
    }
    Some((text, &text[text.len()..]))
}

// What the record is to hold of a text's first line, which is `line` of a file with so many facts, and the text behind it.
fn read_line(text: &[u8], line: usize, facts: u32) -> Result<(u64, &[u8]), Refusal>
    requires { facts ≤ max_facts }
    ensures ok { IfOk result (λ r. Says facts line text.now r.0 r.1.now) }
    ensures err { IfErr result (λ refusal. Stops facts line text.now refusal) }
{
    if text.is_empty() {
        return Err(Refusal::LineMissing(line));
    }
    let kind = kind_of(line, facts);
    let from_value = text
        .strip_prefix(key_of(line))
        .ok_or(Refusal::WrongKey(line))?;
    let (value, rest) = cut(from_value, kind).ok_or(Refusal::Malformed(line))?;
    let content = read_value(value, kind, line)?;
    Ok((content, rest))
}

// The questions about the lines of a text, up to the first that gets no.
pub fn read_lines(text: &[u8]) -> Result<Task, Refusal>
    ensures { returned result ≡ follow (lines text.now) 1 zeros }
{
    let mut task = Task::default();
    let mut line = 1;
    let mut rest = text;
    // Which line is the last is known only when lines 4 and 5 have been read, so the lines are no range.
    while line <= last_line(task) {
        let (content, behind) = read_line(rest, line, task.facts)?;
        store(&mut task, line, content);
        rest = behind;
        line += 1;
    }
    if !rest.is_empty() {
        return Err(Refusal::TextGoesOn(line));
    }
    Ok(task)
}
