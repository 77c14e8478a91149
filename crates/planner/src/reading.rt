// What the rows say after the searches: plans, prices, answers, ranks, the order of settling; and notes, which the reader may keep with them.
ghost use Rattle.std.specs.Prelude.{◌≡◌, ◌++◌, ◌≤◌, ◌<◌, length, get_or, drop};
ghost use Rattle.outcome.specs.Answer.{value_of};
ghost use Rattle.search.specs.Limits.{max_places};
ghost use Rattle.planner.specs.Inner.Columns.{Readable};
ghost use Rattle.planner.specs.Inner.Key.{ResponseKey};
ghost use Rattle.planner.specs.Reading.{reading_at, Short, rank_at, settled_at, notes, Noted};

use least_plans::write_plan;
use outcome::{Answer, Minutes, Price};
use responses::{action_of_hop, row_of_hop};
use rows::{HOP, KEY, NOTE, ORDER, VALUE, WORDS, get, put};
use search::{cost_of_key, steps_of_key};
use std::marker::Model;

// A row that the searches have met, seen as what it says.
#[derive(Drop)]
pub struct Row<'a> {
    rows: &'a [[u64; WORDS]],
    i: usize,
}

impl<'a> Model for Row<'a> {
    ghost use Rattle.planner.specs.Reading.{Reading, reading_at};
    ghost use Rattle.planner.specs.Inner.Columns.{Readable};

    ghost Value = { Reading };

    ghost view = { λ r. reading_at r.rows.now r.i };

    ghost invariant = { λ r. Readable r.rows.now r.i };
}

impl<'a> Row<'a> {
    // Row i, whose plans are short.
    #[tactic(auto, using(crate::specs::Laws::Reading::short_plans))]
    pub fn new(rows: &'a [[u64; WORDS]], i: usize) -> Self
        requires { Readable rows.now i }
        ensures says { result ≡ reading_at rows.now i }
        ensures short { Short result }
    {
        Row { rows, i }
    }

    // What the leader plan costs.
    #[tactic(auto, unfolding(crate::specs::Inner::Columns::Readable, crate::specs::Reading::price_at))]
    pub fn price(&self) -> Price
        ensures { result.0 ≡ self.now.price }
    {
        Price(cost_of_key(get(self.rows, self.i, KEY) - 1))
    }

    // The key of the best response, if the goal can be reached.
    #[tactic(auto, using(crate::specs::Laws::Reading::follower_length), unfolding(crate::specs::Inner::Columns::Readable, crate::specs::Reading::answer_at, crate::specs::Reading::answer_in))]
    fn value(&self) -> Option<u64>
        ensures { ResponseKey self.now result }
    {
        get(self.rows, self.i, VALUE).checked_sub(1)
    }

    // The answer of the row's state.
    pub fn answer(&self) -> Answer
        ensures { value_of result ≡ self.now.answer }
    {
        Some(Minutes(cost_of_key(self.value()?)))
    }

    // Leader plans of one price are in the order of their ranks.
    #[tactic(auto, unfolding(crate::specs::Inner::Columns::Readable))]
    pub fn rank(&self) -> usize
        ensures { result ≡ self.now.rank }
    {
        rank(self.rows, self.i)
    }

    // How many steps the leader plan has.
    #[tactic(auto, using(crate::specs::Laws::Reading::leader_length), unfolding(crate::specs::Inner::Columns::Readable))]
    pub fn leader_steps(&self) -> usize
        ensures { (result ≡ length self.now.leader_plan) × (result < max_places) }
    {
        steps_of_key(get(self.rows, self.i, KEY) - 1)
    }

    // How many steps the best response has; 0 where there is none.
    pub fn response_steps(&self) -> usize
        ensures { (result ≡ length self.now.follower_plan) × (result < max_places) }
    {
        self.value().map_or(0, |key| steps_of_key(key))
    }

    // Writes the leader plan to the front of the plan slice, and returns its steps.
    #[tactic(auto, using(crate::specs::Laws::Reading::leader_length), unfolding(crate::specs::Inner::Columns::Readable, crate::specs::Reading::leader_plan_at))]
    pub fn write_leader_plan(&self, plan: &mut [u8]) -> usize
        requires { length self.now.leader_plan ≤ length plan.old }
        ensures { (result ≡ length self.now.leader_plan) × (plan.new ≡ self.now.leader_plan ++ drop result plan.old) }
    {
        write_plan(self.rows, self.i, plan)
    }

    // The same for the best response.
    #[tactic(auto, using(crate::specs::Laws::Reading::walked_start, crate::specs::Laws::Reading::walked_more, crate::specs::Laws::Reading::walked_end))]
    pub fn write_response(&self, plan: &mut [u8]) -> usize
        requires { length self.now.follower_plan ≤ length plan.old }
        ensures { (result ≡ length self.now.follower_plan) × (plan.new ≡ self.now.follower_plan ++ drop result plan.old) }
    {
        let steps = self.response_steps();
        let mut x = self.i;
        for step in &mut plan[..steps] {
            let hop = get(self.rows, x, HOP);
            *step = action_of_hop(hop);
            x = row_of_hop(hop);
        }
        steps
    }
}

// The rank of row i, which need not be one that the searches have met.
#[tactic(auto, unfolding(crate::specs::Reading::rank_at))]
pub fn rank(rows: &[[u64; WORDS]], i: usize) -> usize
    requires { i < length rows.now }
    ensures { result ≡ rank_at rows.now i }
{
    least_plans::rank(rows, i)
}

// The row that was settled after p others.
#[tactic(auto, unfolding(crate::specs::Reading::settled_at))]
pub fn settled_row(rows: &[[u64; WORDS]], p: usize) -> usize
    requires { p < length rows.now }
    ensures { result ≡ settled_at rows.now p }
{
    get(rows, p, ORDER) as usize
}

// The number that is noted with row k.
#[tactic(auto, unfolding(crate::specs::Reading::notes))]
pub fn note(rows: &[[u64; WORDS]], k: usize) -> usize
    requires { k < length rows.now }
    ensures { result ≡ get_or (notes rows.now) k 0 }
{
    get(rows, k, NOTE) as usize
}

// Notes a number with row k.
pub fn put_note(rows: &mut [[u64; WORDS]], k: usize, v: usize)
    requires { k < length rows.old }
    ensures { Noted rows.old k v rows.new }
{
    put(rows, k, NOTE, v as u64);
}
