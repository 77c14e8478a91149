// The text of the lines, put into a lent slice.
ghost use Rattle.std.specs.Prelude.{◌≡◌, ◌≤◌, length};
ghost use Rattle.questions.specs.Lent.{over};
ghost use Rattle.text_output.specs.Puts.{HasRoom, Puts};
ghost use Rattle.report_text.specs.Report.{lines_text, report_text};
ghost use Rattle.report.specs.Inner.Text.{PlansFirst};

use front_lines::Lines;
use report_text::{put_entry, put_head};
use text_output::Output;

// The lines; the plan numbers begin with their plans.
#[tactic(auto, using(crate::specs::Laws::Text::turn_start, crate::specs::Laws::Text::turn_fits, crate::specs::Laws::Text::turn_room))]
fn put_lines(out: &mut Output<'_>, lines: &Lines<'_>, plans: &[u8])
    requires { PlansFirst lines.now plans.now × HasRoom (lines_text lines.now) out.old }
    ensures { Puts (lines_text lines.now) out.old out.new }
{
    let mut rest = plans;
    for k in 0..lines.count() {
        let numbers = lines.entry(k);
        rest = put_entry(out, numbers, rest);
    }
}

// The first printed line and the lines.
#[tactic(auto, using(report_text::specs::Laws::Sizes::report_length, crate::specs::Laws::Text::report_puts))]
fn put_text(out: &mut Output<'_>, lines: &Lines<'_>, plans: &[u8])
    requires { PlansFirst lines.now plans.now × HasRoom (report_text lines.now) out.old }
    ensures { Puts (report_text lines.now) out.old out.new }
{
    put_head(out, lines.count());
    put_lines(out, lines, plans);
}

// The text of the lines at the front of a slice, and how many bytes it has.
// Not by `put_in`: of a closure that borrows a struct with a model, it is not proved that it puts into the same slice.
#[tactic(auto, using(text_output::specs::Laws::Puts::put_over))]
pub fn put_report(text: &mut [u8], lines: &Lines<'_>, plans: &[u8]) -> usize
    requires { PlansFirst lines.now plans.now × (length (report_text lines.now) ≤ length text.old) }
    ensures bytes { result ≡ length (report_text lines.now) }
    ensures text { text.new ≡ over (report_text lines.now) text.old }
{
    let mut out = Output::new(text);
    put_text(&mut out, lines, plans);
    out.end
}
