// The recursion from the last period to the first, and in each from the first echelon on.
ghost use Rattle.std.specs.Prelude.{◌≡◌, ℕ, ℤ, ◌+◌, ◌-◌, ◌^◌, ◌<◌, ◌≤◌, ◌+ℤ◌, ◌≤ℤ◌, pos, true, length, unsigned_abs, IfSome, MatchOption};
ghost use Rattle.decision_model.specs.Serial.{IsValidSerial};
ghost use Rattle.newsvendor.specs.Least.{first_least_upto};
ghost use Rattle.serial_recursion.specs.Periods.{AreTables, IsBounded, IsFresh, IsWritten};
ghost use Rattle.serial_recursion.specs.Rows.{IsFrame, period_of, turns_from, value_at};

use crate::echelons::begin_echelon;
use crate::frame::{Frame, end_frame, next_frame};
use crate::levels::turns_at;
use crate::numbers::position_at;
use crate::rows::clear;
use decision_model::Serial;

/// The backward recursion over the values of a serial system. It goes through the periods from the last to the first,
/// through the echelons of each from the first on, and through the positions of each echelon from the low end up. Its caller
/// says which level an echelon has, or takes the least one of least cost.
#[derive(Drop)]
pub struct Recursion<'a> {
    serial: &'a Serial,
    // A row an echelon, from the low end up: the values of the last period for the echelons that are begun, those of the
    // period after it for the others.
    values: &'a mut [i128],
    // The costs of orders of the last echelon.
    costs: &'a mut [i128],
    // Room for what an echelon is charged, and for its values as they come.
    charges: &'a mut [i128],
    // How many periods are begun.
    periods: u32,
    // How many echelons of the last period are begun.
    echelons: usize,
    // How many positions of the last echelon have a value.
    cells: usize,
    // The place of the last echelon's level.
    level: usize,
    frame: Frame,
    ghost valid: { ∥ IsValidSerial serial.now ∥₁ },
    ghost tables: { AreTables serial.now values.now costs.now charges.now },
    ghost within: { periods ≤ serial.now.periods },
    ghost echelons_within: { echelons ≤ length serial.now.holding },
    ghost level_within: { 1 ≤ echelons → level < frame.count },
    ghost is_frame: { IsFrame serial.now periods frame },
    ghost fresh: { periods ≡ 0 → IsFresh echelons cells values.now },
    ghost bounded: { 1 ≤ periods → ∥ IsBounded serial.now periods echelons values.now costs.now level ∥₁ },
}

// The place of a level on a grid.
fn level_place(low: i64, level: i128) -> usize
    requires low { unsigned_abs low ≤ 2 ^ 40 }
    requires from { low ≤ℤ level }
    requires near { level ≤ℤ (low +ℤ pos (2 ^ 40)) }
    ensures { low +ℤ pos result ≡ level }
{
    (level - i128::from(low)) as usize
}

impl<'a> Recursion<'a> {
    ghost use Rattle.std.specs.Prelude.{IsTrue, ◌&&◌};
    ghost use Rattle.std.specs.List.{list_all, range_with_len};
    ghost use Rattle.decision_model.specs.Serial.{serial_low};
    ghost use Rattle.value_cert.specs.SerialRules.{FirstRows, no_rows, named_rows, is_period_whole, is_row_whole, is_on_grid, last_period, turns_at_level};
    ghost use Rattle.value_cert.specs.SerialValues.{echelon_value, levels_for, order_cost, row_width};
    ghost use Rattle.value_cert.specs.declared.line.CertLine.TheVariants.{Period, Echelon, Part};
    ghost use Rattle.serial_recursion.specs.Tables.{cells_needed};
    ghost use Rattle.serial_recursion.specs.Periods.{is_whole, is_ready, is_left, next_at};
    ghost use Rattle.serial_recursion.specs.Recursions.{serial_of, periods_of, echelons_of, cells_of, KnowsRows};

    /// A recursion that has gone through no period. The cells may hold anything.
    pub fn new(serial: &'a Serial, cells: &'a mut [i128]) -> Recursion<'a>
        requires valid { IsValidSerial serial.now }
        requires cells { length cells.old ≡ cells_needed serial.now }
        ensures serial { serial_of result ≡ serial.now }
        ensures periods { periods_of result ≡ 0 }
        ensures echelons { echelons_of result ≡ 0 }
        ensures cells { cells_of result ≡ 0 }
        ensures knows { KnowsRows result no_rows }
    {
        let positions = serial.positions() as usize;
        let (values, rest) = cells.split_at_mut(serial.holding.as_slice().len() * positions);
        let (costs, charges) = rest.split_at_mut(positions);
        let count = values.len();
        clear(values, count);
        Recursion {
            serial,
            values,
            costs,
            charges,
            periods: 0,
            echelons: 0,
            cells: 0,
            level: 0,
            frame: end_frame(serial),
        }
    }

    /// The instance that it is of.
    pub fn serial(&self) -> &Serial
        ensures serial { result.now ≡ serial_of self.now }
        ensures valid { IsValidSerial (serial_of self.now) }
    {
        self.serial
    }

    /// How many periods are begun. The last of them is the one that so many and one less are left from on.
    pub fn periods(&self) -> u32
        ensures known { (first : FirstRows) → KnowsRows self.now first → result ≡ first.periods }
        ensures periods { result ≡ periods_of self.now }
        ensures within { result ≤ (serial_of self.now).periods }
    {
        self.periods
    }

    /// How many echelons of the last period are begun.
    pub fn echelons(&self) -> usize
        ensures known { (first : FirstRows) → KnowsRows self.now first → result ≡ first.echelons }
        ensures echelons { result ≡ echelons_of self.now }
        ensures within { result ≤ length (serial_of self.now).holding }
    {
        self.echelons
    }

    /// How many positions each echelon of the last period has.
    pub fn row_width(&self) -> usize
        requires begun { 1 ≤ periods_of self.now }
        ensures { result ≡ row_width (serial_of self.now) (period_of (serial_of self.now) (periods_of self.now)) }
    {
        self.frame.count
    }

    /// Whether all echelons of the last period have a value at each position, or no period is begun.
    pub fn is_period_whole(&self) -> bool
        ensures known { (first : FirstRows) → KnowsRows self.now first → result ≡ is_period_whole (serial_of self.now) first }
        ensures whole { result ≡ is_whole (serial_of self.now) (periods_of self.now) (echelons_of self.now) (cells_of self.now) }
    {
        self.periods == 0
            || (self.echelons == self.serial.holding.as_slice().len()
                && self.frame.count <= self.cells)
    }

    /// Whether the next echelon may be begun: a period is, the echelon before has a value at each position, and it isn't
    /// the last one.
    pub fn is_echelon_next(&self) -> bool
        ensures known { (first : FirstRows) → KnowsRows self.now first → result ≡ is_ready (serial_of self.now) first.periods first.echelons first.cells }
        ensures ready { result ≡ is_ready (serial_of self.now) (periods_of self.now) (echelons_of self.now) (cells_of self.now) }
    {
        0 < self.periods
            && (self.echelons == 0 || self.frame.count <= self.cells)
            && self.echelons < self.serial.holding.as_slice().len()
    }

    /// Whether the last echelon has a position without a value.
    pub fn is_position_next(&self) -> bool
        ensures known { (first : FirstRows) → KnowsRows self.now first → result ≡ is_left (serial_of self.now) first.periods first.echelons first.cells }
        ensures left { result ≡ is_left (serial_of self.now) (periods_of self.now) (echelons_of self.now) (cells_of self.now) }
    {
        0 < self.echelons && !(self.frame.count <= self.cells)
    }

    /// The next position of the last echelon.
    pub fn position(&self) -> i64
        requires left { is_left (serial_of self.now) (periods_of self.now) (echelons_of self.now) (cells_of self.now) ≡ true }
        ensures known { (first : FirstRows) → KnowsRows self.now first → result ≡ next_at (serial_of self.now) first.periods first.cells }
        ensures next { result ≡ next_at (serial_of self.now) (periods_of self.now) (cells_of self.now) }
    {
        position_at(self.frame.low, self.cells)
    }

    /// Whether a level lies on the grid of the last period.
    pub fn is_on_grid(&self, level: i128) -> bool
        requires begun { 1 ≤ periods_of self.now }
        ensures known { (first : FirstRows) → KnowsRows self.now first → result ≡ is_on_grid (serial_of self.now) (last_period (serial_of self.now) first) level }
        ensures on { result ≡ is_on_grid (serial_of self.now) (period_of (serial_of self.now) (periods_of self.now)) level }
    {
        i128::from(self.frame.low) <= level && level <= i128::from(self.serial.cap)
    }

    /// Begins the period before.
    pub fn begin_period(&mut self)
        requires whole { is_whole (serial_of self.old) (periods_of self.old) (echelons_of self.old) (cells_of self.old) ≡ true }
        requires left { periods_of self.old < (serial_of self.old).periods }
        ensures serial { serial_of self.new ≡ serial_of self.old }
        ensures periods { periods_of self.new ≡ periods_of self.old + 1 }
        ensures echelons { echelons_of self.new ≡ 0 }
        ensures cells { cells_of self.new ≡ 0 }
        ensures knows { (first : FirstRows) (period : ℤ) → KnowsRows self.old first → KnowsRows self.new (named_rows first (Period period)) }
    {
        self.frame = next_frame(self.serial, self.periods, &self.frame);
        self.periods += 1;
        self.echelons = 0;
        self.cells = 0;
    }

    // Whether the costs of orders of the last echelon turn at a place.
    fn turns_at(&self, place: usize) -> bool
        requires begun { 1 ≤ self.now.periods }
        requires inside { place < self.now.frame.count }
        ensures { result ≡ list_all (turns_from (value_at self.now.costs.now) place) (range_with_len 0 (self.now.frame.count - 1)) }
    {
        turns_at(self.costs, place, self.frame.count)
    }

    // Begins the next echelon with its level at the given place, or with none given at the first one of least cost.
    fn begin_next(&mut self, given: Option<usize>) -> usize
        requires ready { is_ready (serial_of self.old) (periods_of self.old) (echelons_of self.old) (cells_of self.old) ≡ true }
        requires given { IfSome given (λ place. place < self.old.frame.count) }
        ensures serial { serial_of self.new ≡ serial_of self.old }
        ensures periods { periods_of self.new ≡ periods_of self.old }
        ensures echelons { echelons_of self.new ≡ echelons_of self.old + 1 }
        ensures cells { cells_of self.new ≡ 0 }
        ensures frame { self.new.frame ≡ self.old.frame }
        ensures written { IsWritten self.old.serial.now self.old.frame (period_of self.old.serial.now self.old.periods) self.old.echelons
            self.old.values.now self.old.costs.now self.old.level self.new.values.now self.new.costs.now result }
        ensures place { MatchOption given (result ≡ first_least_upto (value_at self.new.costs.now) (self.old.frame.count - 1)) (λ place. result ≡ place) }
        ensures knows { (first : FirstRows) (echelon level : ℤ) → KnowsRows self.old first →
            serial_low (serial_of self.old) (period_of (serial_of self.old) (periods_of self.old)) +ℤ pos result ≡ level →
            KnowsRows self.new (named_rows first (Echelon echelon level)) }
    {
        let place = begin_echelon(
            self.serial,
            &self.frame,
            self.periods,
            self.echelons,
            self.level,
            given,
            self.values,
            self.costs,
            self.charges,
        );
        self.echelons += 1;
        self.cells = 0;
        self.level = place;
        place
    }

    /// Begins the next echelon with a level, and says whether its costs of orders turn there: whether they don't rise up to
    /// it and don't fall from it on.
    pub fn begin_echelon(&mut self, level: i128) -> bool
        requires ready { is_ready (serial_of self.old) (periods_of self.old) (echelons_of self.old) (cells_of self.old) ≡ true }
        requires level { is_on_grid (serial_of self.old) (period_of (serial_of self.old) (periods_of self.old)) level ≡ true }
        ensures serial { serial_of self.new ≡ serial_of self.old }
        ensures periods { periods_of self.new ≡ periods_of self.old }
        ensures echelons { echelons_of self.new ≡ echelons_of self.old + 1 }
        ensures cells { cells_of self.new ≡ 0 }
        ensures turns { (first : FirstRows) → KnowsRows self.old first →
            result ≡ turns_at_level (serial_of self.old) (last_period (serial_of self.old) first) (order_cost (serial_of self.old) first.later (first.periods - 1) (last_period (serial_of self.old) first) first.echelons) level }
        ensures knows { (first : FirstRows) (echelon : ℤ) → KnowsRows self.old first → KnowsRows self.new (named_rows first (Echelon echelon level)) }
    {
        let place = level_place(self.frame.low, level);
        self.begin_next(Some(place));
        self.turns_at(place)
    }

    /// Begins the next echelon with the least level at which its costs of orders are least, and says which it is.
    pub fn begin_least_echelon(&mut self) -> i64
        requires ready { is_ready (serial_of self.old) (periods_of self.old) (echelons_of self.old) (cells_of self.old) ≡ true }
        ensures serial { serial_of self.new ≡ serial_of self.old }
        ensures periods { periods_of self.new ≡ periods_of self.old }
        ensures echelons { echelons_of self.new ≡ echelons_of self.old + 1 }
        ensures cells { cells_of self.new ≡ 0 }
        ensures level { (first : FirstRows) → KnowsRows self.old first →
            result ≡ levels_for (serial_of self.old) (order_cost (serial_of self.old) first.later (first.periods - 1) (last_period (serial_of self.old) first)) (last_period (serial_of self.old) first) first.echelons }
        ensures knows { (first : FirstRows) (echelon : ℤ) → KnowsRows self.old first → KnowsRows self.new (named_rows first (Echelon echelon result)) }
    {
        let low = self.frame.low;
        let place = self.begin_next(None);
        position_at(low, place)
    }

    /// The value of the last echelon at its next position, by its level and that of the echelon before.
    pub fn find(&self) -> i128
        requires left { is_left (serial_of self.now) (periods_of self.now) (echelons_of self.now) (cells_of self.now) ≡ true }
        ensures { (first : FirstRows) → KnowsRows self.now first →
            result ≡ echelon_value (serial_of self.now) (order_cost (serial_of self.now) first.later (first.periods - 1) (last_period (serial_of self.now) first)) first.levels (first.periods - 1) (last_period (serial_of self.now) first) (first.echelons - 1) (next_at (serial_of self.now) first.periods first.cells) }
    {
        self.values[(self.echelons - 1) * self.costs.len() + self.cells]
    }

    /// Goes on to the next position, where the value of this one is what `find` finds.
    pub fn keep(&mut self)
        requires left { is_left (serial_of self.old) (periods_of self.old) (echelons_of self.old) (cells_of self.old) ≡ true }
        ensures serial { serial_of self.new ≡ serial_of self.old }
        ensures periods { periods_of self.new ≡ periods_of self.old }
        ensures echelons { echelons_of self.new ≡ echelons_of self.old }
        ensures cells { cells_of self.new ≡ cells_of self.old + 1 }
        ensures knows { (first : FirstRows) (at value : ℤ) → KnowsRows self.old first → at ≡ next_at (serial_of self.old) first.periods first.cells →
            value ≡ echelon_value (serial_of self.old) (order_cost (serial_of self.old) first.later (first.periods - 1) (last_period (serial_of self.old) first)) first.levels (first.periods - 1) (last_period (serial_of self.old) first) (first.echelons - 1) (next_at (serial_of self.old) first.periods first.cells) →
            KnowsRows self.new (named_rows first (Part at value)) }
    {
        self.cells += 1;
    }
}
