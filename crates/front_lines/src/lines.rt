// The lines of the rows that are noted: their entries, and their plans, counted and written one after another.
ghost use Rattle.std.specs.Prelude.{◌≡◌, ◌++◌, ◌*◌, ◌≤◌, ◌<◌, length, drop};
ghost use Rattle.search.specs.Limits.{max_places};
ghost use Rattle.pareto.specs.Layout.{entry_for, plans_for};
ghost use Rattle.planner.specs.Reading.{Short};
ghost use Rattle.front_lines.specs.Lines.{line_of, line_number, plans_of, lines_in, Listed};

use outcome::Entry;
use planner::{Row, note};
use rows::WORDS;
use std::marker::Model;

// How many steps the plans of a row have.
fn line_steps(row: &Row<'_>) -> usize
    ensures { (result ≡ length (plans_of (line_of row.now))) × (result < 2 * max_places) }
{
    row.leader_steps() + row.response_steps()
}

// The entry of a row's line.
pub fn entry(row: &Row<'_>) -> Entry
    ensures { result ≡ entry_for (line_of row.now) }
{
    Entry {
        price: row.price(),
        answer: row.answer(),
        leader_steps: row.leader_steps() as u32,
        follower_steps: row.response_steps() as u32,
    }
}

// Writes both plans of a row to the front of the plan slice, and returns their steps.
fn write_line(row: &Row<'_>, plans: &mut [u8]) -> usize
    requires { length (plans_of (line_of row.now)) ≤ length plans.old }
    ensures { (result ≡ length (plans_of (line_of row.now))) × (plans.new ≡ plans_of (line_of row.now) ++ drop result plans.old) }
{
    let steps = row.write_leader_plan(plans);
    steps + row.write_response(&mut plans[steps..])
}

// The lines of the first `count` noted rows, seen as a list. They are gone over by number, here and in `report`: an iterator would be one more type with a
// model of its own.
#[derive(Drop)]
pub struct Lines<'a> {
    rows: &'a [[u64; WORDS]],
    count: usize,
}

impl<'a> Model for Lines<'a> {
    ghost use Rattle.std.specs.Prelude.{List};
    ghost use Rattle.pareto.specs.Front.{Line};
    ghost use Rattle.front_lines.specs.Lines.{lines_in, Listed};

    ghost Value = { List Line };

    ghost view = { λ l. lines_in l.rows.now l.count };

    ghost invariant = { λ l. Listed l.rows.now l.count };
}

impl<'a> Lines<'a> {
    // The lines of the first `count` noted rows.
    #[tactic(auto, using(crate::specs::Laws::Listed::listed_length))]
    pub fn new(rows: &'a [[u64; WORDS]], count: usize) -> Self
        requires { Listed rows.now count }
        ensures lines { result ≡ lines_in rows.now count }
        ensures count { length result ≡ count }
    {
        Lines { rows, count }
    }

    // How many lines there are.
    #[tactic(auto, using(crate::specs::Laws::Listed::listed_length))]
    pub fn count(&self) -> usize
        ensures { (result ≡ length self.now) × (result ≤ max_places) }
    {
        self.count
    }

    // The row of line k, whose plans are short.
    #[tactic(auto, using(crate::specs::Laws::Listed::listed_length, crate::specs::Laws::Listed::listed_line))]
    pub fn row(&self, k: usize) -> Row<'a>
        requires { k < length self.now }
        ensures line { line_of result ≡ line_number self.now k }
        ensures short { Short result }
    {
        Row::new(self.rows, note(self.rows, k))
    }

    // The entry of line k.
    pub fn entry(&self, k: usize) -> Entry
        requires { k < length self.now }
        ensures { result ≡ entry_for (line_number self.now k) }
    {
        entry(&self.row(k))
    }

    // How many steps the plans of all lines have.
    #[tactic(auto, using(crate::specs::Laws::Plans::plans_none, crate::specs::Laws::Plans::steps_more))]
    pub fn total_steps(&self) -> usize
        ensures { result ≡ length (plans_for self.now) }
    {
        let mut total = 0;
        for k in 0..self.count() {
            total += line_steps(&self.row(k));
        }
        total
    }

    // Writes the plans of all lines.
    pub fn write_plans(&self, plans: &mut [u8])
        requires { length (plans_for self.now) ≤ length plans.old }
        ensures { plans.new ≡ plans_for self.now ++ drop (length (plans_for self.now)) plans.old }
    {
        let mut at = 0;
        for k in 0..self.count() {
            at += write_line(&self.row(k), &mut plans[at..]);
        }
    }
}
