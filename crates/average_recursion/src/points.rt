// The entries of the positions, one position after another.
ghost use Rattle.std.specs.Prelude.{◌≡◌, ◌<◌, ◌≤◌, ◌*◌, ◌^◌, length, unsigned_abs};
ghost use Rattle.decision_model.specs.Average.{IsValidAverage, average_positions};
ghost use Rattle.average_recursion.specs.Laws.{HoldsLaws};
ghost use Rattle.average_recursion.specs.Rows.{AreTables, AreTerms, IsGain, IsPlace, ratio_of};
ghost use Rattle.average_recursion.specs.Entries.{entry_at, AreSmallEntries};

use crate::cells::{Entries, keep_entries};
use crate::entries::{gain_at, is_at_most, is_worth};
use crate::gain::{Gain, gain_of, is_gain, limit_at};
use crate::laws::{HeldLaws, hold_laws};
use crate::pair::is_pair;
use crate::place::{Place, first_place, go_up};
use crate::terms::{Terms, terms_of};
use decision_model::Average;

/// What the lines of a certificate of an average cost have named so far: the average cost, the pair, and the entries of the
/// first positions of the grid, from the floor up. Each line is taken with the rule that it breaks; one that breaks a rule
/// isn't kept.
///
/// A position takes one pass over the demands above 0 of positive weight for each table, and a few steps beside it.
#[derive(Drop)]
pub struct Points<'a> {
    average: &'a Average,
    // The relative values from below of the first positions but the last of the grid, over the denominator of the position
    // before the last.
    lower: &'a mut [i128],
    // Those from above.
    upper: &'a mut [i128],
    // The laws.
    sums: &'a mut [u128],
    laws: HeldLaws,
    terms: Terms,
    gain: Gain,
    low: i128,
    high: i128,
    // The next position.
    place: Place,
    ghost valid: { ∥ IsValidAverage average.now ∥₁ },
    ghost tables: { AreTables average.now lower.now upper.now sums.now },
    ghost holds: { HoldsLaws average.now laws sums.now },
    ghost are_terms: { AreTerms average.now terms },
    ghost is_gain: { IsGain average.now gain },
    ghost is_place: { IsPlace average.now place },
    ghost small_lower: { AreSmallEntries average.now (ratio_of gain) place.count (entry_at lower.now) },
    ghost small_upper: { AreSmallEntries average.now (ratio_of gain) place.count (entry_at upper.now) },
}

impl<'a> Points<'a> {
    ghost use Rattle.std.specs.Prelude.{◌+◌, ◌*◌, ◌++◌, ◌∷◌, [], ℕ, ℤ, true, if◌then◌else◌, unsigned_abs, Option, None, Some};
    ghost use Rattle.value_cert.specs.AverageRules.{FirstPoints, no_points, named_points, is_gain, is_pair, is_lower_entry, is_upper_entry, is_zero_at_high, is_next_point, point_rule, are_points_whole};
    ghost use Rattle.value_cert.specs.AverageValues.{limit};
    ghost use Rattle.value_cert.specs.declared.line.CertLine.TheVariants as line;
    ghost use Rattle.average_recursion.specs.Entries.{entry_most};
    ghost use Rattle.average_recursion.specs.Recursions.{average_of, count_of, power_of, gain_of, KnowsPoints};
    ghost use Rattle.average_recursion.specs.Tables.{cells_needed, sums_needed};

    /// No line yet. The cells and the sums may hold anything.
    pub fn new(average: &'a Average, cells: &'a mut [i128], sums: &'a mut [u128]) -> Points<'a>
        requires valid { IsValidAverage average.now }
        requires cells { length cells.old ≡ cells_needed average.now }
        requires sums { length sums.old ≡ sums_needed average.now }
        ensures average { average_of result ≡ average.now }
        ensures points { KnowsPoints result no_points }
    {
        let terms = terms_of(average);
        let laws = hold_laws(average, sums);
        let place = first_place(average, &terms, &sums[..laws.lead]);
        let gain = gain_of(average, &terms, 0, 0);
        let (lower, upper) = cells.split_at_mut(terms.positions);
        Points {
            average,
            lower,
            upper,
            sums,
            laws,
            terms,
            gain,
            low: 0,
            high: 0,
            place,
        }
    }

    /// The instance that it is of.
    pub fn average(&self) -> &Average
        ensures average { result.now ≡ average_of self.now }
        ensures valid { IsValidAverage (average_of self.now) }
    {
        self.average
    }

    /// Whether each position of the grid has its entries.
    pub fn is_whole(&self) -> bool
        ensures { (first : FirstPoints) → KnowsPoints self.now first → result ≡ are_points_whole (average_of self.now) first }
    {
        self.place.count == self.terms.positions
    }

    /// Takes an average cost, by the absolute values of its numbers: whether it is in lowest terms and both are in range.
    /// One that is kept begins the tables anew.
    pub fn take_gain(&mut self, num: i128, den: i128) -> bool
        ensures average { average_of self.new ≡ average_of self.old }
        ensures rule { result ≡ is_gain (average_of self.old) (unsigned_abs num) (unsigned_abs den) }
        ensures points { (first : FirstPoints) → KnowsPoints self.old first → result ≡ true →
            KnowsPoints self.new (named_points first (line.Gain num den)) }
    {
        let num = num.unsigned_abs();
        let den = den.unsigned_abs();
        if !is_gain(self.average, &self.terms, num, den) {
            return false;
        }
        self.begin(num, den);
        true
    }

    // The floor.
    fn floor_place(&self) -> Place
        ensures place { IsPlace (average_of self.now) result }
        ensures first { result.count ≡ 0 }
    {
        let weights = &self.sums[..self.laws.lead];
        first_place(self.average, &self.terms, weights)
    }

    // The place above the next position.
    fn next_place(&self) -> Place
        requires left { count_of self.now < average_positions (average_of self.now) }
        ensures place { IsPlace (average_of self.now) result }
        ensures next { result.count ≡ count_of self.now + 1 }
    {
        let weights = &self.sums[..self.laws.lead];
        let mut place = self.place;
        go_up(self.average, &self.terms, weights, &mut place);
        place
    }

    // Begins the tables of an average cost.
    fn begin(&mut self, num: u128, den: u128)
        requires { is_gain (average_of self.old) num den ≡ true }
        ensures average { average_of self.new ≡ average_of self.old }
        ensures points { (first : FirstPoints) → KnowsPoints self.old first →
            KnowsPoints self.new (record { g = record { num = num; den = den }; low = first.low; high = first.high; lower = []; upper = [] }) }
    {
        self.place = self.floor_place();
        self.gain = gain_of(self.average, &self.terms, num, den);
    }

    /// Takes a pair: whether it is in order on the grid, where its lower position may be one below the floor.
    pub fn take_pair(&mut self, low: i128, high: i128) -> bool
        ensures average { average_of self.new ≡ average_of self.old }
        ensures rule { result ≡ is_pair (average_of self.old) low high }
        ensures points { (first : FirstPoints) → KnowsPoints self.old first → result ≡ true →
            KnowsPoints self.new (named_points first (line.Pair low high)) }
    {
        if !is_pair(self.average, low, high) {
            return false;
        }
        self.low = low;
        self.high = high;
        true
    }

    /// Takes a position with its entries, by their absolute values. The least rule that it breaks: 2 where it isn't the next
    /// one, 5 by the lower entry, 6 by the upper one, 7 where that isn't 0 at the pair's higher position.
    pub fn take_point(&mut self, at: i128, lower: i128, upper: i128) -> Option<u32>
        ensures average { average_of self.new ≡ average_of self.old }
        ensures rule { (first : FirstPoints) → KnowsPoints self.old first →
            result ≡ point_rule (average_of self.old) first at (unsigned_abs lower) (unsigned_abs upper) }
        ensures points { (first : FirstPoints) → KnowsPoints self.old first → result ≡ None →
            KnowsPoints self.new (named_points first (line.Point at lower upper)) }
    {
        if !self.is_next(at) {
            return Some(2);
        }
        let lower = lower.unsigned_abs();
        if !self.is_lower_entry(lower) {
            return Some(5);
        }
        let upper = upper.unsigned_abs();
        if !self.is_upper_entry(at, upper) {
            return Some(6);
        }
        if !self.is_zero_at_high(at, upper) {
            return Some(7);
        }
        self.keep(lower, upper);
        None
    }

    // Whether a position is the next one of the grid.
    fn is_next(&self, at: i128) -> bool
        ensures rule { (first : FirstPoints) → KnowsPoints self.now first → result ≡ is_next_point (average_of self.now) first at }
        ensures left { result ≡ true → count_of self.now < average_positions (average_of self.now) }
    {
        if self.place.count >= self.terms.positions {
            return false;
        }
        i128::from(self.average.floor) + self.place.count as i128 == at
    }

    // What ordering costs at the next position.
    fn limit_here(&self) -> u128
        requires left { count_of self.now < average_positions (average_of self.now) }
        ensures exact { result ≡ limit (average_of self.now) (gain_of self.now) (count_of self.now) }
        ensures small { result * power_of self.now ≤ entry_most (average_of self.now) (gain_of self.now) (count_of self.now) }
    {
        limit_at(&self.gain, &self.terms, self.place.power)
    }

    // Whether a lower entry of the next position is at most what keeping it is worth, and at most the setup cost.
    fn is_lower_entry(&self, entry: u128) -> bool
        requires left { count_of self.now < average_positions (average_of self.now) }
        ensures rule { (first : FirstPoints) → KnowsPoints self.now first → result ≡ is_lower_entry (average_of self.now) first entry }
        ensures small { result ≡ true → entry * power_of self.now ≤ entry_most (average_of self.now) (gain_of self.now) (count_of self.now) }
    {
        if entry > self.limit_here() {
            return false;
        }
        let cells = &self.lower[..self.place.count];
        let gain = gain_at(
            self.average,
            &self.laws,
            self.sums,
            &self.gain,
            &self.place,
            cells,
        );
        is_at_most(entry, gain, self.gain.loss, self.place.power)
    }

    // Whether an upper entry of the next position is the setup cost up to the pair's lower position, and above it what
    // keeping the position is worth.
    fn is_upper_entry(&self, at: i128, entry: u128) -> bool
        requires left { count_of self.now < average_positions (average_of self.now) }
        ensures rule { (first : FirstPoints) → KnowsPoints self.now first → result ≡ is_upper_entry (average_of self.now) first at entry }
        ensures small { result ≡ true → entry * power_of self.now ≤ entry_most (average_of self.now) (gain_of self.now) (count_of self.now) }
    {
        if at <= self.low {
            return entry == self.limit_here();
        }
        let cells = &self.upper[..self.place.count];
        let gain = gain_at(
            self.average,
            &self.laws,
            self.sums,
            &self.gain,
            &self.place,
            cells,
        );
        is_worth(entry, gain, self.gain.loss, self.place.power)
    }

    // Whether an upper entry is 0 at the pair's higher position.
    fn is_zero_at_high(&self, at: i128, entry: u128) -> bool
        ensures { (first : FirstPoints) → KnowsPoints self.now first → result ≡ is_zero_at_high first at entry }
    {
        if at != self.high {
            return true;
        }
        entry == 0
    }

    // Keeps the entries of the next position, and goes on to the one above.
    fn keep(&mut self, lower: u128, upper: u128)
        requires left { count_of self.old < average_positions (average_of self.old) }
        requires small_lower { lower * power_of self.old ≤ entry_most (average_of self.old) (gain_of self.old) (count_of self.old) }
        requires small_upper { upper * power_of self.old ≤ entry_most (average_of self.old) (gain_of self.old) (count_of self.old) }
        ensures average { average_of self.new ≡ average_of self.old }
        ensures points { (first : FirstPoints) → KnowsPoints self.old first →
            KnowsPoints self.new (record { g = first.g; low = first.low; high = first.high; lower = first.lower ++ lower ∷ []; upper = first.upper ++ upper ∷ [] }) }
    {
        let next = self.next_place();
        let factor = self.place.power / self.terms.moving;
        keep_entries(
            &mut self.place,
            next,
            factor,
            self.lower,
            self.upper,
            Entries { lower, upper },
        );
    }
}
