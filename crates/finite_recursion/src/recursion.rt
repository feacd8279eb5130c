// The recursion from the last period to the first.
ghost use Rattle.std.specs.Prelude.{◌≡◌, ℕ, ℤ, suc, ◌+◌, ◌-◌, ◌<◌, ◌≤◌, ◌≤ℤ◌, ◌-ℤ◌, pos, true, false, length};
ghost use Rattle.decision_model.specs.Finite.{IsValidFinite};
ghost use Rattle.finite_recursion.specs.Rows.{IsBegun, AreTables, AreSmall, IsFresh};

use crate::costs::{choose, cost_with_units, order_value, total_cost, weigh};
use crate::ends::end_row;
use crate::laws::{HeldLaws, weights_of};
use crate::row::{Kept, Row, keep_place, next_row, no_row, place_at, position_at, step_walk};
use decision_model::Finite;

/// What the recursion finds at a position: the cost of staying there, and the first position of least value with its value.
#[derive(Clone, Copy, Debug)]
pub struct Found {
    /// The value of staying, which is the cost of the position after the order.
    pub stay: i128,
    pub to: i64,
    pub value: i128,
}

/// The backward recursion over the values of a finite horizon. It goes through the periods from the last to the first,
/// and through the positions of each from the cap down, and its caller says which value each position keeps.
#[derive(Drop)]
pub struct Recursion<'a> {
    finite: &'a Finite,
    // A value a place, the cap being place 0: of the last row up to the next place, of the later row from there on.
    values: &'a mut [i128],
    // What staying costs at each place of the last row up to the next one.
    costs: &'a mut [i128],
    // Room for the positions that an order can lead to.
    room: &'a mut [i128],
    // The laws of the last row's period.
    sums: &'a mut [u128],
    // How many periods have a row.
    rows: u32,
    laws: HeldLaws,
    row: Row,
    ghost valid: { ∥ IsValidFinite finite.now ∥₁ },
    ghost tables: { AreTables finite.now values.now costs.now room.now sums.now },
    ghost within: { rows ≤ finite.now.periods },
    ghost fresh: { rows ≡ 0 → IsFresh finite.now row.place values.now },
    ghost small: { AreSmall finite.now rows row.place values.now costs.now },
    ghost begun: { IsBegun finite.now rows laws row costs.now room.now sums.now },
}

impl<'a> Recursion<'a> {
    ghost use Rattle.value_cert.specs.FiniteRules.{FirstRows, no_rows, named_values, is_row_whole, last_period};
    ghost use Rattle.value_cert.specs.FiniteValues.{cost_after, value_of, least_choice, row_width};
    ghost use Rattle.value_cert.specs.declared.line.CertLine.TheVariants.{Period, Value};
    ghost use Rattle.finite_recursion.specs.Rows.{row_period};
    ghost use Rattle.finite_recursion.specs.Tables.{cells_needed, sums_needed};
    ghost use Rattle.finite_recursion.specs.Sizes.{IsSmallStay, IsSmallValue};
    ghost use Rattle.finite_recursion.specs.Recursions.{finite_of, rows_of, place_of, is_whole, next_position, next_at, KnowsRows};

    /// A recursion that has gone through no period. The cells and the sums may hold anything.
    pub fn new(finite: &'a Finite, cells: &'a mut [i128], sums: &'a mut [u128]) -> Recursion<'a>
        requires valid { IsValidFinite finite.now }
        requires cells { length cells.old ≡ cells_needed finite.now }
        requires sums { length sums.old ≡ sums_needed finite.now }
        ensures finite { finite_of result ≡ finite.now }
        ensures rows { KnowsRows result (no_rows finite.now) }
    {
        let positions = finite.positions() as usize;
        let (values, rest) = cells.split_at_mut(positions);
        let (costs, room) = rest.split_at_mut(positions);
        end_row(finite, values);
        Recursion {
            finite,
            values,
            costs,
            room,
            sums,
            rows: 0,
            laws: HeldLaws {
                lead: 0,
                half: 0,
                listed: 0,
            },
            row: no_row(finite, positions),
        }
    }

    /// The instance that it is of.
    pub fn finite(&self) -> &Finite
        ensures finite { result.now ≡ finite_of self.now }
        ensures valid { IsValidFinite (finite_of self.now) }
    {
        self.finite
    }

    /// How many periods have a row so far, begun or whole.
    pub fn rows(&self) -> u32
        ensures known { (first : FirstRows) → KnowsRows self.now first → result ≡ first.rows }
        ensures rows { result ≡ rows_of self.now }
    {
        self.rows
    }

    /// Whether the last row has all positions of its period, or there is none.
    #[inline(always)]
    pub fn is_row_whole(&self) -> bool
        ensures known { (first : FirstRows) → KnowsRows self.now first → result ≡ is_row_whole (finite_of self.now) first }
        ensures whole { result ≡ is_whole self.now }
    {
        self.rows == 0 || self.row.width <= self.row.place
    }

    /// How many positions the last row has once it is whole.
    pub fn row_width(&self) -> usize
        requires begun { 1 ≤ rows_of self.now }
        ensures { result ≡ row_width (finite_of self.now) (suc (finite_of self.now).periods - rows_of self.now) }
    {
        self.row.width
    }

    /// The next position of the row.
    #[inline(always)]
    pub fn position(&self) -> i64
        requires left { is_whole self.now ≡ false }
        ensures known { (first : FirstRows) → KnowsRows self.now first → result ≡ next_at (finite_of self.now) first }
        ensures next { result ≡ next_position self.now }
    {
        position_at(self.finite.cap, self.row.place)
    }

    /// Begins the row of the period before.
    pub fn begin_row(&mut self)
        requires whole { is_whole self.old ≡ true }
        requires left { rows_of self.old < (finite_of self.old).periods }
        ensures finite { finite_of self.new ≡ finite_of self.old }
        ensures rows { rows_of self.new ≡ rows_of self.old + 1 }
        ensures left { is_whole self.new ≡ false }
        ensures place { place_of self.new ≡ 0 }
        ensures knows { (first : FirstRows) (period : ℤ) → KnowsRows self.old first →
            KnowsRows self.new (named_values (finite_of self.old) first (Period period)) }
    {
        let positions = self.values.len();
        next_row(
            self.finite,
            positions,
            &mut self.rows,
            &mut self.laws,
            &mut self.row,
            self.sums,
        );
    }

    /// What is least at the next position, with the values of the next period.
    #[inline(always)]
    pub fn find(&self) -> Found
        requires left { is_whole self.now ≡ false }
        ensures stay { (first : FirstRows) → KnowsRows self.now first →
            result.stay ≡ cost_after (finite_of self.now) first.later (first.rows - 1) (last_period (finite_of self.now) first) (next_at (finite_of self.now) first) }
        ensures to { (first : FirstRows) → KnowsRows self.now first →
            result.to ≡ least_choice (finite_of self.now) first.later (first.rows - 1) (last_period (finite_of self.now) first) (next_at (finite_of self.now) first) }
        ensures value { (first : FirstRows) → KnowsRows self.now first →
            result.value ≡ value_of (finite_of self.now) first.later (first.rows - 1) (last_period (finite_of self.now) first) (next_at (finite_of self.now) first)
            (least_choice (finite_of self.now) first.later (first.rows - 1) (last_period (finite_of self.now) first) (next_at (finite_of self.now) first)) }
        ensures stay_small { IsSmallStay (finite_of self.now) (rows_of self.now) result.stay }
        ensures value_small { IsSmallValue (finite_of self.now) (rows_of self.now) result.value }
    {
        let stay = self.stay();
        let at = self.position();
        let best = self.row.reach.least(self.room);
        choose(&self.row.scales, stay, at, best)
    }

    // What staying at the next position costs.
    #[inline(always)]
    fn stay(&self) -> i128
        requires left { is_whole self.now ≡ false }
        ensures exact { (first : FirstRows) → KnowsRows self.now first →
            result ≡ cost_after (finite_of self.now) first.later (first.rows - 1) (last_period (finite_of self.now) first) (next_at (finite_of self.now) first) }
        ensures small { IsSmallStay (finite_of self.now) (rows_of self.now) result }
    {
        let weights = weights_of(self.finite, self.finite.periods - (self.rows - 1));
        let listed = &self.sums[self.laws.half..self.laws.half + self.laws.listed];
        let later = weigh(weights, listed, &self.values[self.row.place..]);
        total_cost(
            self.row.scales.stock,
            self.row.walk.value(),
            self.finite.discount_num,
            later,
        )
    }

    /// The value of ordering at the next position up to `to`, or of staying there.
    pub fn value_of(&self, found: &Found, to: i64) -> i128
        requires left { is_whole self.now ≡ false }
        requires from { next_position self.now ≤ℤ to }
        requires below { to ≤ℤ (finite_of self.now).cap }
        requires stay { IsSmallStay (finite_of self.now) (rows_of self.now) found.now.stay }
        ensures value { (first : FirstRows) → KnowsRows self.now first →
            found.now.stay ≡ cost_after (finite_of self.now) first.later (first.rows - 1) (last_period (finite_of self.now) first) (next_at (finite_of self.now) first) →
            result ≡ value_of (finite_of self.now) first.later (first.rows - 1) (last_period (finite_of self.now) first) (next_at (finite_of self.now) first) to }
        ensures small { IsSmallValue (finite_of self.now) (rows_of self.now) result }
    {
        let at = self.position();
        if to == at {
            return found.stay;
        }
        let stay = self.costs[place_at(self.finite.cap, to)];
        let cost = cost_with_units(stay, self.row.scales.unit, to);
        order_value(&self.row.scales, at, cost)
    }

    /// Keeps a value for the next position, and goes on to the one below.
    #[inline(always)]
    pub fn keep(&mut self, found: &Found, value: i128)
        requires left { is_whole self.old ≡ false }
        requires stay { IsSmallStay (finite_of self.old) (rows_of self.old) found.now.stay }
        requires value { IsSmallValue (finite_of self.old) (rows_of self.old) value }
        ensures finite { finite_of self.new ≡ finite_of self.old }
        ensures rows { rows_of self.new ≡ rows_of self.old }
        ensures place { place_of self.new ≡ place_of self.old + 1 }
        ensures knows { (first : FirstRows) (at to : ℤ) → KnowsRows self.old first →
            found.now.stay ≡ cost_after (finite_of self.old) first.later (first.rows - 1) (last_period (finite_of self.old) first) (next_at (finite_of self.old) first) →
            KnowsRows self.new (named_values (finite_of self.old) first (Value at to value)) }
    {
        let kept = Kept {
            at: self.position(),
            stay: found.stay,
            value,
        };
        keep_place(&mut self.row, self.values, self.costs, self.room, &kept);
        step_walk(&mut self.row, self.laws.lead, self.sums);
    }
}
