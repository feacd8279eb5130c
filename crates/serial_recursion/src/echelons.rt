// The rows of an echelon when it is begun.
ghost use Rattle.std.specs.Prelude.{◌≡◌, ℕ, ◌+◌, ◌-◌, ◌*◌, ◌^◌, ◌<◌, ◌≤◌, length, unsigned_abs, IfSome, MatchOption};
ghost use Rattle.newsvendor.specs.Least.{first_least_upto};
ghost use Rattle.decision_model.specs.Serial.{IsValidSerial, serial_positions};
ghost use Rattle.decision_model.specs.SerialProblem.{law_of_period, unit_of};
ghost use Rattle.serial_recursion.specs.Periods.{AreTables, IsBounded, IsWritten};
ghost use Rattle.serial_recursion.specs.Rows.{HasRoom, IsFrame, charge_of, period_of, place_cost, place_value, rates_for, row_at, value_at};

use crate::frame::Frame;
use crate::laws::weights_of;
use crate::levels::place_or_least;
use crate::orders::order_row;
use crate::rates::rates_of;
use crate::rows::store_row;
use crate::values::{charge_row, value_row};
use decision_model::Serial;

// Puts what the next echelon is charged and its costs of orders into their rows.
fn begin_rows(
    serial: &Serial,
    frame: &Frame,
    periods: u32,
    echelon: usize,
    level: usize,
    values: &[i128],
    costs: &mut [i128],
    charges: &mut [i128],
)
    requires valid { IsValidSerial serial.now }
    requires some { 1 ≤ periods }
    requires within { periods ≤ serial.now.periods }
    requires echelon { echelon < length serial.now.holding }
    requires tables { AreTables serial.now values.now costs.old charges.old }
    requires few { frame.now.count + frame.now.greatest ≤ serial_positions serial.now }
    requires level { 1 ≤ echelon → level < frame.now.count }
    requires small { 1 ≤ echelon → (k : ℕ) → k < frame.now.count → unsigned_abs (value_at costs.old k) ≤ 2 ^ 121 }
    requires room { HasRoom frame.now (law_of_period serial.now (period_of serial.now periods)) (unit_of serial.now echelon) (row_at values.now (echelon * serial_positions serial.now)) }
    ensures tables { AreTables serial.now values.now costs.new charges.new }
    ensures charges { (k : ℕ) → k < frame.now.count → value_at charges.new k ≡ charge_of echelon costs.old level k }
    ensures costs { (k : ℕ) → k < frame.now.count → value_at costs.new k ≡
        place_cost frame.now (law_of_period serial.now (period_of serial.now periods)) (unit_of serial.now echelon) (row_at values.now (echelon * serial_positions serial.now)) k }
{
    charge_row(echelon, costs, level, charges, frame.count);
    let weights = weights_of(serial, serial.periods - (periods - 1));
    let unit = serial.unit.as_slice()[echelon];
    let start = echelon * costs.len();
    order_row(frame, weights, unit, values, start, costs);
}

// Puts the values of an echelon into its row, from its costs of orders, its level and what it is charged.
fn end_rows(
    serial: &Serial,
    frame: &Frame,
    periods: u32,
    echelon: usize,
    level: usize,
    values: &mut [i128],
    costs: &[i128],
    charges: &mut [i128],
)
    requires valid { IsValidSerial serial.now }
    requires some { 1 ≤ periods }
    requires within { periods ≤ serial.now.periods }
    requires echelon { echelon < length serial.now.holding }
    requires tables { AreTables serial.now values.old costs.now charges.old }
    requires few { frame.now.count ≤ serial_positions serial.now }
    requires frame { IsFrame serial.now periods frame.now }
    requires level { level < frame.now.count }
    requires cost_sizes { (k : ℕ) → k < frame.now.count → unsigned_abs (value_at costs.now k) ≤ 2 ^ 121 }
    requires charge_sizes { (k : ℕ) → k < frame.now.count → unsigned_abs (value_at charges.old k) ≤ 2 ^ 122 }
    ensures tables { AreTables serial.now values.new costs.now charges.new }
    ensures stored { (k : ℕ) → k < frame.now.count → row_at values.new (echelon * serial_positions serial.now) k ≡
        place_value frame.now (rates_for serial.now echelon) (law_of_period serial.now (period_of serial.now periods)) costs.now level (value_at charges.old k) k }
    ensures below { (k : ℕ) → k < echelon * serial_positions serial.now → value_at values.new k ≡ value_at values.old k }
    ensures above { (k : ℕ) → echelon * serial_positions serial.now + frame.now.count ≤ k → value_at values.new k ≡ value_at values.old k }
{
    let rates = rates_of(serial, echelon);
    let weights = weights_of(serial, serial.periods - (periods - 1));
    value_row(frame, &rates, weights, costs, level, charges);
    let start = echelon * costs.len();
    store_row(charges, frame.count, values, start);
}

// Begins an echelon whose level is at the given place, or with none given at the first one at which its costs of orders are
// least, and says which it is. The echelon before has its level at another place.
pub(crate) fn begin_echelon(
    serial: &Serial,
    frame: &Frame,
    periods: u32,
    echelon: usize,
    level: usize,
    given: Option<usize>,
    values: &mut [i128],
    costs: &mut [i128],
    charges: &mut [i128],
) -> usize
    requires valid { IsValidSerial serial.now }
    requires some { 1 ≤ periods }
    requires within { periods ≤ serial.now.periods }
    requires echelon { echelon < length serial.now.holding }
    requires tables { AreTables serial.now values.old costs.old charges.old }
    requires frame { IsFrame serial.now periods frame.now }
    requires level { 1 ≤ echelon → level < frame.now.count }
    requires given { IfSome given (λ place. place < frame.now.count) }
    requires bounded { ∥ IsBounded serial.now periods echelon values.old costs.old level ∥₁ }
    ensures tables { AreTables serial.now values.new costs.new charges.new }
    ensures written { IsWritten serial.now frame.now (period_of serial.now periods) echelon values.old costs.old level values.new costs.new result }
    ensures place { MatchOption given (result ≡ first_least_upto (value_at costs.new) (frame.now.count - 1)) (λ place. result ≡ place) }
{
    begin_rows(
        serial, frame, periods, echelon, level, values, costs, charges,
    );
    let next = place_or_least(given, costs, frame.count);
    end_rows(
        serial, frame, periods, echelon, next, values, costs, charges,
    );
    next
}
