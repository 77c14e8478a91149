// The four working slices, which every call that searches is lent.
ghost use Rattle.std.specs.Prelude.{[], ◌∷◌, ◌↔◌, ◌≤◌, IsTrue};
ghost use Rattle.questions.specs.Lent.{lent};
ghost use Rattle.questions.specs.Size.{PlacesOf};
ghost use Rattle.questions.specs.Workspace.{sizes_of, Cleared, RowsKept};
ghost use Rattle.search.specs.Limits.{max_places};

use outcome::Refusal;
use rows::{BUCKET_WORDS, LINK_WORDS, WORDS};
use search::MAX_PLACES;

// Each slice has one place for a state: the state, its buckets in an index of the states, its transitions, and its columns of the searches. C lends them as
// four slices, of any lengths, so they are no slice of structs.
#[derive(Drop)]
pub struct Workspace<'a> {
    pub states: &'a mut [u64],
    pub index: &'a mut [[u16; BUCKET_WORDS]],
    pub links: &'a mut [[u16; LINK_WORDS]],
    pub rows: &'a mut [[u64; WORDS]],
}

// Whether a working slice may have so many places.
fn is_allowed(places: usize) -> bool
    ensures { IsTrue result ↔ ((1 ≤ places) × (places ≤ max_places)) }
{
    (1..=MAX_PLACES).contains(&places)
}

// Question 8 of four slices: the places of the shortest, where none has too few or too many.
pub fn places(states: usize, index: usize, links: usize, rows: usize) -> Result<usize, Refusal>
    ensures { PlacesOf (states ∷ index ∷ links ∷ rows ∷ []) result }
{
    let sizes = [states, index, links, rows];
    if !sizes.iter().all(|n| is_allowed(*n)) {
        return Err(Refusal::WorkspaceSize);
    }
    Ok(states.min(index).min(links).min(rows))
}

impl Workspace<'_> {
    // The same of a workspace's own slices.
    pub fn places(&self) -> Result<usize, Refusal>
        ensures { PlacesOf (sizes_of self.now) result }
    {
        places(
            self.states.len(),
            self.index.len(),
            self.links.len(),
            self.rows.len(),
        )
    }

    // Clears all but the rows.
    pub fn clear_all_but_rows(&mut self)
        ensures { RowsKept (lent self) }
    {
        self.states.fill(0);
        self.index.fill([0; BUCKET_WORDS]);
        self.links.fill([0; LINK_WORDS]);
    }

    // Clears all four.
    pub fn clear(&mut self)
        ensures { Cleared (lent self) }
    {
        self.clear_all_but_rows();
        self.rows.fill([0; WORDS]);
    }
}
