// Lists of facts, written.
ghost use Rattle.std.specs.Prelude.{true, ◌≤◌};
ghost use Rattle.strips.specs.Limits.{max_facts};
ghost use Rattle.task_format.specs.Render.{facts_of, listed};
ghost use Rattle.text_output.specs.Puts.{HasRoom, Puts};
ghost use Rattle.task_writer.specs.Puts.{member_text};

use text_output::Output;

// A fact of a list, behind a comma unless it is the first.
#[tactic(auto, using(crate::specs::Laws::Puts::five_digits))]
fn put_member(out: &mut Output<'_>, first: bool, fact: u32)
    requires { (fact ≤ max_facts) × HasRoom (member_text first fact) out.old }
    ensures { Puts (member_text first fact) out.old out.new }
{
    if !first {
        out.put_byte(b',');
    }
    out.put_digits(fact);
}

// The facts of a set among the first `facts`.
pub fn put_list(out: &mut Output<'_>, facts: u32, set: u64)
    requires { (facts ≤ max_facts) × HasRoom (listed true (facts_of facts 1 set)) out.old }
    ensures { Puts (listed true (facts_of facts 1 set)) out.old out.new }
{
    let mut first = true;
    let mut rest = set;
    for fact in 1..=facts {
        if rest % 2 == 1 {
            put_member(out, first, fact);
            first = false;
        }
        rest /= 2;
    }
}
