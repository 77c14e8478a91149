// The text put into an output, one part behind the other.
ghost use Rattle.std.specs.Prelude.{◌≡◌, ◌∷◌, ◌≤◌, length, drop};
ghost use Rattle.outcome.specs.Answer.{value_of};
ghost use Rattle.task_format.specs.Text.{comma};
ghost use Rattle.text_output.specs.Puts.{HasRoom, Puts};
ghost use Rattle.search.specs.Limits.{max_places};
ghost use Rattle.report_text.specs.Report.{numeral, plan_text, answer_text, printed, line_text, head_text, refusal_text};
ghost use Rattle.report_text.specs.Content.{content_text};
ghost use Rattle.report_text.specs.Entries.{entry_steps, line_from};

use outcome::{Answer, Entry};
use text_output::Output;

// What stands between a printed line's key and its newline. As data and no closure: `content_text` says once what each puts.
#[derive(Clone, Copy)]
enum Content<'a> {
    Number(u32),
    Answer(Answer),
    Plan(&'a [u8]),
}

#[tactic(auto, using(crate::specs::Laws::Numerals::number_is))]
fn put_number(out: &mut Output<'_>, n: u32)
    requires { HasRoom (numeral n) out.old }
    ensures { Puts (numeral n) out.old out.new }
{
    out.put_digits(n);
}

// A plan's number behind its first.
fn put_further(out: &mut Output<'_>, n: u8)
    requires { HasRoom (comma ∷ numeral n) out.old }
    ensures { Puts (comma ∷ numeral n) out.old out.new }
{
    out.put_byte(b',');
    put_number(out, u32::from(n));
}

#[tactic(auto, unfolding(crate::specs::Report::plan_text, crate::specs::Report::further_text))]
fn put_plan(out: &mut Output<'_>, plan: &[u8])
    requires { HasRoom (plan_text plan.now) out.old }
    ensures { Puts (plan_text plan.now) out.old out.new }
{
    let Some((first, rest)) = plan.split_first() else {
        return;
    };
    put_number(out, u32::from(*first));
    for n in rest {
        put_further(out, *n);
    }
}

#[tactic(auto, unfolding(crate::specs::Report::answer_text))]
fn put_answer(out: &mut Output<'_>, answer: Answer)
    requires { HasRoom (answer_text (value_of answer)) out.old }
    ensures { Puts (answer_text (value_of answer)) out.old out.new }
{
    match answer {
        None => out.put_bytes(b"none"),
        Some(minutes) => put_number(out, minutes.0),
    }
}

fn put_content(out: &mut Output<'_>, content: Content<'_>)
    requires { HasRoom (content_text content) out.old }
    ensures { Puts (content_text content.entry) out.old out.new }
{
    match content {
        Content::Number(n) => put_number(out, n),
        Content::Answer(answer) => put_answer(out, answer),
        Content::Plan(plan) => put_plan(out, plan),
    }
}

#[tactic(auto, using(crate::specs::Laws::Sizes::printed_length, text_output::specs::Laws::Puts::puts_append), unfolding(crate::specs::Report::printed))]
fn put_line(out: &mut Output<'_>, key: &[u8], content: Content<'_>)
    requires { HasRoom (printed key.now (content_text content)) out.old }
    ensures { Puts (printed key.now (content_text content.entry)) out.old out.new }
{
    out.put_bytes(key);
    put_content(out, content);
    out.put_byte(b'\n');
}

// The lines of an entry whose plans are the first of these plan numbers. Hands back the others.
#[tactic(auto, using(crate::specs::Laws::Sizes::four_length), unfolding(crate::specs::Entries::line_from))]
pub fn put_entry<'a>(out: &mut Output<'_>, entry: Entry, plans: &'a [u8]) -> &'a [u8]
    requires { (entry_steps entry ≤ length plans.now) × HasRoom (line_text (line_from entry plans.now)) out.old }
    ensures text { Puts (line_text (line_from entry plans.now)) out.old out.new }
    ensures rest { result.now ≡ drop (entry_steps entry) plans.now }
{
    let (outages, others) = plans.split_at(entry.leader_steps as usize);
    let (moves, rest) = others.split_at(entry.follower_steps as usize);
    put_line(out, b"price=", Content::Number(entry.price.0));
    put_line(out, b"answer=", Content::Answer(entry.answer));
    put_line(out, b"outages=", Content::Plan(outages));
    put_line(out, b"moves=", Content::Plan(moves));
    rest
}

// The first printed line.
#[tactic(auto, unfolding(crate::specs::Report::head_text))]
pub fn put_head(out: &mut Output<'_>, count: usize)
    requires { (count ≤ max_places) × HasRoom (head_text count) out.old }
    ensures { Puts (head_text count) out.old out.new }
{
    put_line(out, b"entries=", Content::Number(count as u32));
}

// The two lines of a refusal.
#[tactic(auto, using(crate::specs::Laws::Sizes::refusal_length, text_output::specs::Laws::Puts::puts_append), unfolding(crate::specs::Report::refusal_text))]
pub fn put_refusal(out: &mut Output<'_>, number: u32, place: u32)
    requires { HasRoom (refusal_text number place) out.old }
    ensures { Puts (refusal_text number place) out.old out.new }
{
    put_line(out, b"refused=", Content::Number(number));
    put_line(out, b"line=", Content::Number(place));
}
