// How many bytes the parts of the text have, and that they are few enough to be added up.
// One set over a trait for these and those that put is no plainer: counting promises a bound and asks for no room, so each part would state both.
ghost use Rattle.std.specs.Prelude.{◌≡◌, ◌+◌, ◌*◌, ◌≤◌, length};
ghost use Rattle.outcome.specs.Answer.{value_of};
ghost use Rattle.search.specs.Limits.{max_places};
ghost use Rattle.text_output.specs.Puts.{number_digits};
ghost use Rattle.report_text.specs.Report.{numeral, plan_text, answer_text, head_text};
ghost use Rattle.report_text.specs.Entries.{entry_bytes};

use outcome::{Answer, Entry};

#[tactic(auto, using(crate::specs::Laws::Numerals::numeral_many, crate::specs::Laws::Sizes::digits_one))]
pub fn digit_count(n: u32) -> usize
    ensures { (result ≡ length (numeral n)) × (result ≤ number_digits) }
{
    n.checked_ilog10().map_or(1, |power| power as usize + 1)
}

// The same of a plan's number, without a logarithm: plans can be long.
#[tactic(auto, using(crate::specs::Laws::Numerals::byte_many))]
fn number_bytes(n: u8) -> usize
    ensures { (result ≡ length (numeral n)) × (result ≤ 3) }
{
    1 + usize::from(n >= 10) + usize::from(n >= 100)
}

// The first number has no comma before it.
#[tactic(auto, unfolding(crate::specs::Report::plan_text, crate::specs::Report::further_text))]
pub fn plan_bytes(plan: &[u8]) -> usize
    requires { length plan.now ≤ max_places }
    ensures { (result ≡ length (plan_text plan.now)) × (result ≤ 4 * length plan.now) }
{
    let Some((first, rest)) = plan.split_first() else {
        return 0;
    };
    let mut total = number_bytes(*first);
    for n in rest {
        total += 1 + number_bytes(*n);
    }
    total
}

#[tactic(auto, unfolding(crate::specs::Report::answer_text))]
fn answer_bytes(answer: Answer) -> usize
    ensures { (result ≡ length (answer_text (value_of answer))) × (result ≤ number_digits) }
{
    match answer {
        None => 4,
        Some(minutes) => digit_count(minutes.0),
    }
}

// A line apart from its plans: 31 bytes are its four keys and newlines.
#[tactic(auto, using(crate::specs::Laws::Sizes::entry_bytes_lem))]
pub fn entry_bytes(entry: Entry) -> usize
    ensures { (result ≡ entry_bytes entry) × (result ≤ 31 + 2 * number_digits) }
{
    31 + digit_count(entry.price.0) + answer_bytes(entry.answer)
}

// The first printed line: 9 bytes are its key and newline.
#[tactic(auto, using(crate::specs::Laws::Sizes::head_length))]
pub fn head_bytes(count: usize) -> usize
    requires { count ≤ max_places }
    ensures { (result ≡ length (head_text count)) × (result ≤ 9 + number_digits) }
{
    9 + digit_count(count as u32)
}
