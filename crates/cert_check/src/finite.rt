// The rules of finite horizons.
ghost use Rattle.std.specs.Prelude.{◌≡◌, ◌-◌, ◌≤◌, ◌^◌, ℤ, pos, ◌≤ℤ◌, unsigned_abs, length, false, true, None, Some, if◌then◌else◌};
ghost use Rattle.decision_model.specs.Finite.{IsValidFinite};
ghost use Rattle.decision_model.specs.FiniteProblem.{top};
ghost use Rattle.finite_recursion.specs.Recursions.{finite_of, KnowsRows, next_position};
ghost use Rattle.finite_recursion.specs.Tables.{cells_needed, sums_needed};
ghost use Rattle.value_cert.specs.FiniteRules.{is_allowed};
ghost use Rattle.value_cert.specs.Grammar.{has_numbers};

use crate::kind_rules::KindRules;
use decision_model::Finite;
use finite_recursion::Recursion;
use value_cert::CertLine;

/// A check of a finite horizon's certificate. It goes through the recursion with the values that the lines name, in two
/// rows over the grid.
#[derive(Drop)]
pub(crate) struct FiniteCheck<'a> {
    recursion: Recursion<'a>,
}

// The greatest position that an order may lead to.
fn top(finite: &Finite, position: i64) -> i64
    requires valid { IsValidFinite finite.now }
    requires near { unsigned_abs position ≤ 10 ^ 13 }
    ensures { result ≡ top finite.now position }
{
    match finite.most {
        Some(most) => finite.cap.min(position + most as i64),
        None => finite.cap,
    }
}

// Whether an order may lead from a position to another one, or stay.
fn is_allowed(finite: &Finite, position: i64, to: i128) -> bool
    requires valid { IsValidFinite finite.now }
    requires near { unsigned_abs position ≤ 10 ^ 13 }
    ensures { result ≡ is_allowed finite.now position to }
{
    i128::from(position) <= to && to <= i128::from(top(finite, position))
}

impl<'a> FiniteCheck<'a> {
    ghost use Rattle.value_cert.specs.FiniteRules.{FirstRows, no_rows, named_values, is_next_period, are_rows_whole, value_rule, position_rule, last_period, finite_rule};
    ghost use Rattle.value_cert.specs.declared.line.CertLine.TheVariants.{Period, Value};
    ghost use Rattle.finite_recursion.specs.Recursions.{is_whole};

    pub(crate) fn new(
        finite: &'a Finite,
        cells: &'a mut [i128],
        sums: &'a mut [u128],
    ) -> FiniteCheck<'a>
        requires valid { IsValidFinite finite.now }
        requires cells { length cells.old ≡ cells_needed finite.now }
        requires sums { length sums.old ≡ sums_needed finite.now }
        ensures finite { finite_of result.recursion ≡ finite.now }
        ensures rows { KnowsRows result.recursion (no_rows finite.now) }
    {
        FiniteCheck {
            recursion: Recursion::new(finite, cells, sums),
        }
    }

    // Takes a line that may stand behind those so far: the least rule from 2 on that it breaks.
    fn take(&mut self, line: &CertLine) -> Option<u32>
        ensures finite { finite_of self.new.recursion ≡ finite_of self.old.recursion }
        ensures rule { (first : FirstRows) → KnowsRows self.old.recursion first → result ≡ finite_rule (finite_of self.old.recursion) first line.now }
        ensures rows { (first : FirstRows) → KnowsRows self.old.recursion first → result ≡ None →
            KnowsRows self.new.recursion (named_values (finite_of self.old.recursion) first line.now) }
    {
        match *line {
            CertLine::Period(period) => self.take_period(period),
            CertLine::Value(at, to, value) => self.take_value(at, to, value),
            CertLine::End => self.broken_by_end(),
            _ => None,
        }
    }

    // Takes the period of the next row.
    fn take_period(&mut self, period: i128) -> Option<u32>
        ensures finite { finite_of self.new.recursion ≡ finite_of self.old.recursion }
        ensures rule { (first : FirstRows) → KnowsRows self.old.recursion first →
            result ≡ (if is_next_period (finite_of self.old.recursion) first period then None else Some 2) }
        ensures rows { (first : FirstRows) → KnowsRows self.old.recursion first → result ≡ None →
            KnowsRows self.new.recursion (named_values (finite_of self.old.recursion) first (Period period)) }
    {
        if !self.recursion.is_row_whole() {
            return Some(2);
        }
        let periods = self.recursion.finite().periods;
        let rows = self.recursion.rows();
        if rows >= periods {
            return Some(2);
        }
        if period != i128::from(periods - rows) {
            return Some(2);
        }
        self.recursion.begin_row();
        None
    }

    fn broken_by_end(&self) -> Option<u32>
        ensures { (first : FirstRows) → KnowsRows self.now.recursion first →
            result ≡ (if are_rows_whole (finite_of self.now.recursion) first then None else Some 2) }
    {
        let has_each_period = self.recursion.rows() == self.recursion.finite().periods;
        if has_each_period && self.recursion.is_row_whole() {
            None
        } else {
            Some(2)
        }
    }

    // Takes a position of the row with its choice and value.
    fn take_value(&mut self, at: i128, to: i128, value: i128) -> Option<u32>
        ensures finite { finite_of self.new.recursion ≡ finite_of self.old.recursion }
        ensures rule { (first : FirstRows) → KnowsRows self.old.recursion first →
            result ≡ position_rule (finite_of self.old.recursion) first at to value }
        ensures rows { (first : FirstRows) → KnowsRows self.old.recursion first → result ≡ None →
            KnowsRows self.new.recursion (named_values (finite_of self.old.recursion) first (Value at to value)) }
    {
        if self.recursion.is_row_whole() {
            return Some(2);
        }
        let position = self.recursion.position();
        if at != i128::from(position) {
            return Some(2);
        }
        if !is_allowed(self.recursion.finite(), position, to) {
            return Some(3);
        }
        self.take_choice(to as i64, value)
    }

    // Takes the choice and the value of the next position.
    fn take_choice(&mut self, to: i64, value: i128) -> Option<u32>
        requires left { is_whole self.old.recursion ≡ false }
        requires allowed { is_allowed (finite_of self.old.recursion) (next_position self.old.recursion) to ≡ true }
        ensures finite { finite_of self.new.recursion ≡ finite_of self.old.recursion }
        ensures rule { (first : FirstRows) → KnowsRows self.old.recursion first →
            result ≡ (let finite = finite_of self.old.recursion in
            value_rule finite first.later (first.rows - 1) (last_period finite first) (next_position self.old.recursion) to value) }
        ensures rows { (first : FirstRows) → KnowsRows self.old.recursion first → result ≡ None →
            KnowsRows self.new.recursion (named_values (finite_of self.old.recursion) first (Value (next_position self.old.recursion) to value)) }
    {
        let found = self.recursion.find();
        if value > found.value {
            return Some(4);
        }
        if value != self.recursion.value_of(&found, to) {
            return Some(5);
        }
        self.recursion.keep(&found, value);
        None
    }
}

impl<'a> KindRules for FiniteCheck<'a> {
    ghost use Rattle.cert_check.specs.FiniteChecks.{KnowsFinite};

    ghost knows = { KnowsFinite };

    fn feed(&mut self, line: &CertLine) -> Option<u32> {
        self.take(line)
    }
}
