// What the lines of a bracket's certificate have named so far.
ghost use Rattle.bracket_terms.specs.Known.{item_of};
ghost use Rattle.flat_check.specs.BracketTables.{AreBounds, AreTables};

use crate::bracket_entries::{CellRow, is_bound, is_over_entry, is_pair, is_under_entry, raised};
use bracket_terms::Terms;
use decision_model::Average;
use std::alloc::{AllocError, Global};

/// The bounds, the pair and the entries that the lines so far have named, in two tables over the grid.
#[derive(Drop)]
pub(crate) struct BracketCells<'a> {
    terms: Terms<'a>,
    lower: u128,
    upper: u128,
    low: i128,
    high: i128,
    // How many positions have entries.
    count: usize,
    under: Vec<u128>,
    // Raised, so that none is below 0.
    over: Vec<u128>,
    ghost bounds: { AreBounds (item_of terms) lower upper },
    ghost tables: { AreTables (item_of terms) count under.items over.items },
}

impl<'a> BracketCells<'a> {
    ghost use Rattle.std.specs.Prelude.{◌≡◌, ◌<◌, ◌≤◌, true, ◌&&◌, length, ◌==◌, Option, Some, None, IfOk, unsigned_abs};
    ghost use Rattle.decision_model.specs.Average.{average_positions};
    ghost use Rattle.decision_model.specs.WideAverage.{IsWideAverage};
    ghost use Rattle.flat_check.specs.BracketKnown.{KnowsCells, instance_of, count_of};
    ghost use Rattle.value_cert.specs.AverageRules.{is_pair};
    ghost use Rattle.value_cert.specs.BracketRules.{FirstCells, no_cells, are_bounds, is_under_entry, is_over_entry, is_low_at_high, is_next_cell, cell_rule, named_cell, named_bounds, named_pair};
    ghost use Rattle.value_cert.specs.BracketValues.{setup_parts, most_over};

    /// No line yet.
    pub(crate) fn new(alloc: Global, average: &'a Average) -> Result<BracketCells<'a>, AllocError>
        requires { IsWideAverage average.now }
        ensures instance { IfOk result (λ cells. instance_of cells ≡ average.now) }
        ensures cells { IfOk result (λ cells. KnowsCells cells no_cells) }
    {
        let terms = Terms::new(alloc, average)?;
        let count = terms.sizes().count;
        let under = vec![in alloc; 0; count]?;
        let over = vec![in alloc; 0; count]?;
        Ok(BracketCells {
            terms,
            lower: 0,
            upper: 0,
            low: 0,
            high: 0,
            count: 0,
            under,
            over,
        })
    }

    /// Takes both bounds: whether they are in range.
    pub(crate) fn take_bounds(&mut self, lower: i128, upper: i128) -> bool
        ensures instance { instance_of self.new ≡ instance_of self.old }
        ensures rule { result ≡ are_bounds (instance_of self.old) lower upper }
        ensures cells { (first : FirstCells) → KnowsCells self.old first → result ≡ true →
            KnowsCells self.new (named_bounds first lower upper) }
    {
        if !is_bound(&self.terms, lower) {
            return false;
        }
        if !is_bound(&self.terms, upper) {
            return false;
        }
        self.lower = lower.unsigned_abs();
        self.upper = upper.unsigned_abs();
        true
    }

    /// Takes a pair: whether it is in order on the grid.
    pub(crate) fn take_pair(&mut self, low: i128, high: i128) -> bool
        ensures instance { instance_of self.new ≡ instance_of self.old }
        ensures rule { result ≡ is_pair (instance_of self.old) low high }
        ensures cells { (first : FirstCells) → KnowsCells self.old first → result ≡ true →
            KnowsCells self.new (named_pair first low high) }
    {
        if !is_pair(self.terms.item(), low, high) {
            return false;
        }
        self.low = low;
        self.high = high;
        true
    }

    // Whether a position is the next one of the grid.
    fn is_next(&self, row: &CellRow) -> bool
        ensures rule { (first : FirstCells) → KnowsCells self.now first →
            result ≡ is_next_cell (instance_of self.now) first row.now.at }
        ensures left { result ≡ true → count_of self.now < average_positions (instance_of self.now) }
    {
        if self.count >= self.terms.sizes().count {
            return false;
        }
        i128::from(self.terms.item().floor) + self.count as i128 == row.at
    }

    // Whether the lower entry of the next position passes.
    fn is_under(&self, row: &CellRow) -> bool
        requires left { count_of self.now < average_positions (instance_of self.now) }
        ensures rule { (first : FirstCells) → KnowsCells self.now first →
            result ≡ is_under_entry (instance_of self.now) first.lower first.under row.now.under }
        ensures small { result ≡ true → unsigned_abs row.now.under ≤ setup_parts (instance_of self.now) }
    {
        let under = &self.under[..self.count];
        is_under_entry(&self.terms, self.lower, under, row)
    }

    // Whether the upper entry of the next position passes.
    fn is_over(&self, row: &CellRow) -> bool
        requires left { count_of self.now < average_positions (instance_of self.now) }
        ensures rule { (first : FirstCells) → KnowsCells self.now first →
            result ≡ is_over_entry (instance_of self.now) first.upper first.low first.over row.now.at row.now.over }
        ensures small { result ≡ true →
            unsigned_abs row.now.over ≤ most_over (instance_of self.now) (average_positions (instance_of self.now)) }
    {
        let over = &self.over[..self.count];
        is_over_entry(&self.terms, self.upper, self.low, over, row)
    }

    // Whether the upper entry of a position is at most 0 where it stands at high.
    fn is_low_at_high(&self, row: &CellRow) -> bool
        ensures rule { (first : FirstCells) → KnowsCells self.now first →
            result ≡ is_low_at_high first.high row.now.at row.now.over }
    {
        if row.at != self.high {
            return true;
        }
        row.over <= 0
    }

    // Keeps the entries of the next position.
    fn keep(&mut self, row: &CellRow)
        requires left { count_of self.old < average_positions (instance_of self.old) }
        requires under { unsigned_abs row.now.under ≤ setup_parts (instance_of self.old) }
        requires over { unsigned_abs row.now.over ≤ most_over (instance_of self.old) (average_positions (instance_of self.old)) }
        ensures instance { instance_of self.new ≡ instance_of self.old }
        ensures cells { (first : FirstCells) → KnowsCells self.old first →
            KnowsCells self.new (named_cell first row.now.under row.now.over) }
    {
        let over = raised(row, self.terms.sizes().raise);
        self.under[self.count] = row.under.unsigned_abs();
        self.over[self.count] = over;
        self.count += 1;
    }

    /// Takes a position with its entries: the least rule that it breaks, from 2 on.
    pub(crate) fn take_cell(&mut self, row: &CellRow) -> Option<u32>
        ensures instance { instance_of self.new ≡ instance_of self.old }
        ensures rule { (first : FirstCells) → KnowsCells self.old first →
            result ≡ cell_rule (instance_of self.old) first row.now.at row.now.under row.now.over }
        ensures cells { (first : FirstCells) → KnowsCells self.old first → result ≡ None →
            KnowsCells self.new (named_cell first row.now.under row.now.over) }
    {
        if !self.is_next(row) {
            return Some(2);
        }
        if !self.is_under(row) {
            return Some(5);
        }
        if !self.is_over(row) {
            return Some(6);
        }
        if !self.is_low_at_high(row) {
            return Some(7);
        }
        self.keep(row);
        None
    }

    /// Whether each position has entries.
    pub(crate) fn is_whole(&self) -> bool
        ensures { (first : FirstCells) → KnowsCells self.now first →
            result ≡ (length first.under == average_positions (instance_of self.now)) }
    {
        self.count == self.terms.sizes().count
    }
}
