// A line's value, read.
ghost use Rattle.std.specs.Prelude.{◌≡◌, ◌↔◌, ◌^◌, ◌≤◌, ◌<◌, IsTrue, IfOk, IfSome, IfNone};
ghost use Rattle.strips.specs.Limits.{max_facts};
ghost use Rattle.task_format.specs.Value.{All, IsDigit, Short, NoLeadingZero, decimal, Modest};
ghost use Rattle.value_reader.specs.Answered.{Answered};
ghost use Rattle.value_reader.specs.Members.{Joined};

use outcome::Refusal;
use task_format::{Kind, MAX_DIGITS};

// The number that the bytes say, where they are digits and not too many; where there are none, 0.
fn number(bytes: &[u8]) -> Option<u32>
    ensures some { IfSome result (λ n. All IsDigit bytes.now × Short bytes.now × (n ≡ decimal bytes.now)) }
    ensures none { IfNone result (All IsDigit bytes.now × Short bytes.now → ⊥) }
{
    if MAX_DIGITS < bytes.len() {
        return None;
    }
    let mut n = 0;
    for byte in bytes {
        if !byte.is_ascii_digit() {
            return None;
        }
        n = n * 10 + u32::from(*byte - b'0');
    }
    Some(n)
}

// Whether no zero leads, except in "0" itself.
fn no_leading_zero(bytes: &[u8]) -> bool
    ensures { IsTrue result ↔ NoLeadingZero bytes.now }
{
    bytes.len() < 2 || bytes[0] != b'0'
}

// The members of a list so far, which rise: the last of them, or 0, which is below each fact, and their set.
#[derive(Clone, Copy)]
struct Members {
    last: u32,
    set: u64,
}

// The members with one more, or the first of questions 5 and 6 that gets no.
fn join(
    members: Result<Members, Refusal>,
    member: u32,
    most: u32,
    line: usize,
) -> Result<Members, Refusal>
    requires { (most ≤ max_facts) × IfOk members (λ before. before.set < 2 ^ before.last) }
    ensures { Joined most line members member result }
{
    if member < 1 || most < member {
        return Err(Refusal::OutOfRange(line));
    }
    let before = members?;
    if member <= before.last {
        return Err(Refusal::NotRising(line));
    }
    Ok(Members {
        last: member,
        set: before.set + (1 << (member - 1)),
    })
}

fn read_list(value: &[u8], most: u32, line: usize) -> Result<u64, Refusal>
    requires { most ≤ max_facts }
    ensures { Answered (Kind.FactList most) value.now line result }
{
    if value.is_empty() {
        return Ok(0);
    }
    let mut filled = true;
    let mut unpadded = true;
    let mut members = Ok(Members { last: 0, set: 0 });
    for part in value.split(|byte| *byte == b',') {
        let member = number(part).ok_or(Refusal::Malformed(line))?;
        // Questions 17 and 18 wait until 4 has been asked of all parts.
        filled &= !part.is_empty();
        unpadded &= no_leading_zero(part);
        members = join(members, member, most, line);
    }
    if !filled {
        return Err(Refusal::EmptyMember(line));
    }
    if !unpadded {
        return Err(Refusal::LeadingZero(line));
    }
    Ok(members?.set)
}

fn read_number(value: &[u8], low: u32, high: u32, line: usize) -> Result<u64, Refusal>
    ensures { Answered (Kind.Number low high) value.now line result }
{
    if value.is_empty() {
        return Err(Refusal::Malformed(line));
    }
    let n = number(value).ok_or(Refusal::Malformed(line))?;
    if !no_leading_zero(value) {
        return Err(Refusal::LeadingZero(line));
    }
    if n < low || high < n {
        return Err(Refusal::OutOfRange(line));
    }
    Ok(u64::from(n))
}

// What the record is to hold of a line's value, or the first of questions 4, 17, 18, 5 and 6 that gets no.
pub fn read_value(value: &[u8], kind: Kind, line: usize) -> Result<u64, Refusal>
    requires { Modest kind }
    ensures { Answered kind value.now line result }
{
    match kind {
        Kind::Number(low, high) => read_number(value, low, high, line),
        Kind::FactList(most) => read_list(value, most, line),
    }
}
