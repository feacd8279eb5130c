// What the rules of all places take of an instance.
ghost use Rattle.std.specs.Prelude.{◌≡◌, ℕ, ◌+◌, ◌*◌, ◌^◌, ◌≤◌};
ghost use Rattle.demand_law.specs.CountedSums.{counted};
ghost use Rattle.decision_model.specs.Average.{average_positions};
ghost use Rattle.decision_model.specs.WideAverage.{IsWideAverage};
ghost use Rattle.value_cert.specs.AverageValues.{moving};
ghost use Rattle.bracket_terms.specs.Grids.{AreCosts};
ghost use Rattle.bracket_terms.specs.Moves.{move_sum};
ghost use Rattle.bracket_terms.specs.Sizes.{AreSizes};

use crate::grid::{Costs, Grid};
use crate::guess::guess_lower;
use crate::moves::{Move, list_moves, weigh};
use crate::sizes::{Sizes, sizes_of};
use decision_model::Average;
use demand_law::Law;
use std::alloc::{AllocError, Global};

/// The rules of an instance's places.
#[derive(Drop)]
pub struct Terms<'a> {
    item: &'a Average,
    moves: Vec<Move>,
    costs: Costs,
    sizes: Sizes,
    ghost wide: { ∥ IsWideAverage item.now ∥₁ },
    ghost moves_are: { (f : ℕ → ℕ) → move_sum moves.items f ≡ counted (moving item.now.law) f },
    ghost costs_are: { AreCosts item.now (average_positions item.now) costs },
    ghost sizes_are: { AreSizes item.now sizes },
}

impl<'a> Terms<'a> {
    ghost use Rattle.std.specs.Prelude.{◌+◌, ◌*◌, ◌^◌, ◌<◌, ◌≤◌, sum, length, slice_index, unsigned_abs, IfOk};
    ghost use Rattle.value_cert.specs.BracketValues.{setup_parts, low_cost, up_cost, most_bound, most_over};
    ghost use Rattle.bracket_lemmas.specs.BracketSolved.{under_gain, over_gain};
    ghost use Rattle.bracket_lemmas.specs.EntryFacts.{past};
    ghost use Rattle.bracket_terms.specs.Known.{item_of};

    /// The rules of an instance.
    pub fn new(alloc: Global, item: &'a Average) -> Result<Terms<'a>, AllocError>
        requires { IsWideAverage item.now }
        ensures { IfOk result (λ terms. item_of terms ≡ item.now) }
    {
        let sizes = sizes_of(item);
        let grid = Grid::new(alloc, item)?;
        let costs = grid.costs(alloc, sizes.count)?;
        let moves = list_moves(alloc, moving_weights(&item.law))?;
        Ok(Terms {
            item,
            moves,
            costs,
            sizes,
        })
    }

    /// The instance.
    pub fn item(&self) -> &'a Average
        ensures { result.now ≡ item_of self.now }
    {
        self.item
    }

    /// The least position of the grid.
    pub fn floor(&self) -> i64
        ensures exact { result ≡ (item_of self.now).floor }
        ensures near { unsigned_abs result ≤ 1000000 }
    {
        self.item.floor
    }

    /// The numbers that all places share.
    pub fn sizes(&self) -> Sizes
        ensures { AreSizes (item_of self.now) result }
    {
        self.sizes
    }

    /// A guess at the greatest lower bound, where a search for it may begin: any number.
    pub fn guess_lower(&self, alloc: Global) -> Result<u128, AllocError> {
        guess_lower(alloc, &self.moves, &self.costs, &self.sizes)
    }

    // The sum of the entries that the demands above 0 lead to from the place behind the entries, each times its weight.
    fn past(&self, below: u128, entries: &[u128]) -> u128
        requires { past (item_of self.now) below (slice_index entries.now) (length entries.now) ≤ 2 ^ 122 }
        ensures { result ≡ past (item_of self.now) below (slice_index entries.now) (length entries.now) }
    {
        weigh(&self.moves, entries, below)
    }

    // The cost of a period at a place, in parts, rounded down.
    fn low_at(&self, k: usize) -> u128
        requires { k < average_positions (item_of self.now) }
        ensures { result ≡ low_cost (item_of self.now) k }
    {
        self.costs.low[k]
    }

    // .. and rounded up.
    fn up_at(&self, k: usize) -> u128
        requires { k < average_positions (item_of self.now) }
        ensures { result ≡ up_cost (item_of self.now) k }
    {
        self.costs.up[k]
    }

    /// What a bound takes from each place.
    pub fn loss_of(&self, g: u128) -> u128
        requires { g ≤ most_bound (item_of self.now) }
        ensures exact { result ≡ sum (item_of self.now).law * g }
        ensures small { result ≤ 2 ^ 118 }
    {
        self.sizes.total * g
    }

    /// What keeping the place behind some lower entries is worth, the lower bound aside.
    pub fn under_gain(&self, entries: &[u128]) -> u128
        requires within { length entries.now < average_positions (item_of self.now) }
        requires small { (j : ℕ) → j < length entries.now → slice_index entries.now j ≤ setup_parts (item_of self.now) }
        ensures exact { result ≡ under_gain (item_of self.now) (slice_index entries.now) (length entries.now) }
        ensures small { result ≤ 2 ^ 118 }
    {
        let low = self.low_at(entries.len());
        let after = self.past(self.sizes.setup, entries);
        add_product(self.sizes.total, low, after)
    }

    /// The raised setup cost.
    pub fn raised_setup(&self) -> u128
        ensures exact { result ≡ setup_parts (item_of self.now) + most_over (item_of self.now) (average_positions (item_of self.now)) }
        ensures small { result ≤ 2 ^ 120 }
    {
        self.sizes.setup + self.sizes.raise
    }

    /// What keeping the place behind some raised upper entries is worth, the upper bound aside.
    pub fn over_gain(&self, entries: &[u128]) -> u128
        requires within { length entries.now < average_positions (item_of self.now) }
        requires small { (j : ℕ) → j < length entries.now →
            slice_index entries.now j ≤ 2 * most_over (item_of self.now) (average_positions (item_of self.now)) }
        ensures exact { let item = item_of self.now in
            result ≡ over_gain item (most_over item (average_positions item)) (slice_index entries.now) (length entries.now) }
        ensures small { result ≤ 2 ^ 121 }
    {
        let up = self.up_at(entries.len());
        let after = self.past(self.raised_setup(), entries);
        add_product(self.sizes.total, up, after)
    }
}

// The weights from demand 1 up.
fn moving_weights(law: &Law) -> &[u128]
    ensures { result.now ≡ moving law.now }
{
    &law.weights()[1..]
}

/// A product and a sum behind it.
pub fn add_product(weights: u128, cost: u128, after: u128) -> u128
    requires { weights * cost + after ≤ 2 ^ 122 }
    ensures { result ≡ weights * cost + after }
{
    weights * cost + after
}
