// Not for outsiders. The entries of the front's lines, stored in a lent slice; the rows that they are read from are cleared then.
#![tactic(auto)]

ghost use Rattle.std.specs.Prelude.{◌≡◌, ◌++◌, ◌≤◌, length, map, drop};
ghost use Rattle.pareto.specs.Layout.{entry_for};
ghost use Rattle.front_lines.specs.Lines.{lines_in, Listed};
ghost use Rattle.front_entries.specs.Entries.{rows_left};

use front_lines::Lines;
use outcome::Entry;
use rows::WORDS;

// Clears the rows of n lines. Where there are none the rows stay as they are, which is what was promised of them.
#[tactic(auto, using(crate::specs::Laws::Entries::none_left))]
fn clear_lines(rows: &mut [[u64; WORDS]], n: usize)
    ensures { rows.new ≡ rows_left rows.old n }
{
    if 0 < n {
        rows.fill([0; WORDS]);
    }
}

// Stores the entries of the first n lines, and clears the rows. By index: k is of an entry and of its row.
#[tactic(auto, using(crate::specs::Laws::Entries::stored_more, crate::specs::Laws::Entries::stored_all))]
pub fn take_entries(entries: &mut [Entry], rows: &mut [[u64; WORDS]], n: usize)
    requires { (n ≤ length entries.old) × Listed rows.old n }
    ensures { (entries.new ≡ map entry_for (lines_in rows.old n) ++ drop n entries.old) × (rows.new ≡ rows_left rows.old n) }
{
    let lines = Lines::new(rows, n);
    for k in 0..lines.count() {
        entries[k] = lines.entry(k);
    }
    clear_lines(rows, n);
}
