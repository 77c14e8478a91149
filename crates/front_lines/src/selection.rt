// The rows of the front's lines, noted in one pass over all rows by rising price.
ghost use Rattle.std.specs.Prelude.{◌-◌, ◌≤◌, ◌<◌, length};
ghost use Rattle.strips.specs.declared.Task.{Task};
ghost use Rattle.planner.specs.Reading.{reading_at, SameReading};
ghost use Rattle.planner.specs.Solved.{Solved};
ghost use Rattle.planner.specs.Inner.Columns.{Readable};
ghost use Rattle.front_lines.specs.Lines.{note_at, Chosen};
ghost use Rattle.front_lines.specs.Inner.Selection.{Better, Placed, Visited};

use outcome::is_at_most;
use planner::{Row, note, put_note, settled_row};
use rows::WORDS;

// The place of a row among the lines: the last one's, behind it, or none.
#[derive(Clone, Copy)]
enum Place {
    Instead,
    Behind,
    Nowhere,
}

// Whether a row is preferred to another of the same price: by the higher answer, then by the lower rank.
// No comparison of pairs: the one rises where the other falls, and none, which is the least of `Option`, is the highest answer.
#[tactic(auto, using(crate::specs::Laws::Selection::higher_answer, crate::specs::Laws::Selection::lower_rank))]
fn is_preferred(row: &Row<'_>, other: &Row<'_>) -> bool
    ensures { Better row.now other.now result }
{
    let a = row.answer();
    let b = other.answer();
    if !is_at_most(a, b) {
        return true;
    }
    if !is_at_most(b, a) {
        return false;
    }
    row.rank() < other.rank()
}

// Where a row stands to the last line's row, which is not dearer.
#[tactic(auto, using(crate::specs::Laws::Selection::cheaper_serves, crate::specs::Laws::Selection::lower_under))]
fn place_of(row: &Row<'_>, last: &Row<'_>) -> Place
    ensures { Placed row.now last.now result }
{
    if last.price() < row.price() {
        if is_at_most(row.answer(), last.answer()) {
            return Place::Nowhere;
        }
        return Place::Behind;
    }
    if is_preferred(row, last) {
        return Place::Instead;
    }
    Place::Nowhere
}

// Row i is noted where it belongs, behind `count` rows that are not dearer. How many are noted then.
fn visit(rows: &mut [[u64; WORDS]], count: usize, i: usize) -> usize
    requires { Readable rows.old i × (count < length rows.old) × (1 ≤ count → Readable rows.old (note_at rows.old (count - 1))) }
    ensures { Visited (reading_at rows.old) rows.old count i rows.new result }
{
    if count == 0 {
        put_note(rows, 0, i);
        return 1;
    }
    let last = note(rows, count - 1);
    match place_of(&Row::new(rows, i), &Row::new(rows, last)) {
        Place::Instead => {
            put_note(rows, count - 1, i);
            count
        }
        Place::Behind => {
            put_note(rows, count, i);
            count + 1
        }
        Place::Nowhere => count,
    }
}

// Notes the rows of the front's lines, in the lines' order, with rows 0, 1, .. How many lines there are.
pub fn choose(rows: &mut [[u64; WORDS]], m: usize) -> usize
    requires { (t : Task) × Solved t rows.old m }
    ensures { SameReading rows.old rows.new × (result ≤ m)
        × ((t : Task) → Solved t rows.old m → Chosen t rows.new result) }
{
    let mut count = 0;
    for p in 0..m {
        let i = settled_row(rows, p);
        count = visit(rows, count, i);
    }
    count
}
