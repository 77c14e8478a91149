// How many bytes the text of the lines will have, counted before anything lent is written.
ghost use Rattle.std.specs.Prelude.{◌≡◌, ◌≤◌, ◌<◌, length};
ghost use Rattle.front_lines.specs.Lines.{line_number};
ghost use Rattle.report_text.specs.Report.{line_text, report_text};
ghost use Rattle.report.specs.Inner.Bytes.{max_line_bytes};

use front_lines::Lines;
use report_text::{entry_bytes, head_bytes, plan_bytes};
use search::MAX_PLACES;

// The bytes of line k. Each of its plans is written to the front of `plan` and counted there.
fn line_bytes(lines: &Lines<'_>, k: usize, plan: &mut [u8; MAX_PLACES]) -> usize
    requires { k < length lines.now }
    ensures { (result ≡ length (line_text (line_number lines.now k))) × (result ≤ max_line_bytes) }
{
    let row = lines.row(k);
    let steps = row.write_leader_plan(plan);
    let leader = plan_bytes(&plan[..steps]);
    let answer = row.write_response(plan);
    let follower = plan_bytes(&plan[..answer]);
    let numbers = lines.entry(k);
    entry_bytes(numbers) + leader + follower
}

// The bytes of the text of the lines.
#[tactic(auto, using(crate::specs::Laws::Bytes::counted_start, crate::specs::Laws::Bytes::counted_end))]
fn lines_bytes(lines: &Lines<'_>, plan: &mut [u8; MAX_PLACES]) -> usize
    ensures { result ≡ length (report_text lines.now) }
{
    let count = lines.count();
    let mut total = head_bytes(count);
    for k in 0..count {
        total += line_bytes(lines, k, plan);
    }
    total
}

// The same, with a place of its own to write plans to.
pub fn report_bytes(lines: &Lines<'_>) -> usize
    ensures { result ≡ length (report_text lines.now) }
{
    let mut plan = [0u8; MAX_PLACES];
    lines_bytes(lines, &mut plan)
}
