// The serial kind.
ghost use Rattle.std.specs.Prelude.{◌≡◌, ◌↔◌, ◌^◌, ◌<◌, ◌≤◌, sum, IsTrue};
ghost use Rattle.decision_model.specs.Serial.{IsReadableSerial, SerialGridFits, serial_grid_fits, serial_cost_bound, serial_width, IsRegularSerial};

use crate::kinds::Kind;
use crate::limits::{MOST_BITS, MOST_CELLS, MOST_POSITIONS};
use crate::rules::KindRules;
use crate::width::cost_of;
use fraction128::{checked_pow, within};
use model_terms::{Amounts, Laws, Positions, low_after, positions_from};

/// A serial system after Clark and Scarf (1960): echelon 1 faces demand, the last one orders from outside.
#[derive(Drop)]
pub struct Serial {
    pub periods: u32,
    /// The cost of each unit of echelon stock, one rate an echelon.
    pub holding: Amounts,
    /// The cost of each unit that enters an echelon, one rate an echelon.
    pub unit: Amounts,
    /// The cost of each unit that lacks after a period's demand.
    pub stockout: u64,
    /// The factor on the cost of each later period is `discount_num / discount_den`.
    pub discount_num: u32,
    pub discount_den: u32,
    /// One law that serves every period, or one each for `periods` periods.
    pub laws: Laws,
    /// The greatest echelon stock of the last echelon.
    pub cap: i64,
    /// The echelon stocks before the first period, never falling.
    pub start: Positions,
}

impl Serial {
    ghost use Rattle.std.specs.Prelude.{◌≡◌, ◌+◌, ◌≤◌, unsigned_abs};
    ghost use Rattle.decision_model.specs.Serial.{IsReadableSerial, serial_low, serial_positions};

    /// The low end of the grid in a period, from 1 to the one after the last.
    pub fn low(&self, period: u32) -> i64
        requires readable { IsReadableSerial self.now }
        requires from_one { 1 ≤ period }
        requires within { period ≤ self.now.periods + 1 }
        ensures low { result ≡ serial_low self.now period }
        ensures small { unsigned_abs result ≤ 2040000 }
    {
        low_after(self.start.as_slice()[0], self.laws.greatest(), period - 1)
    }

    /// How many positions the grid has after the last period.
    #[tactic(auto, unfolding(crate::specs::Serial::serial_positions))]
    pub fn positions(&self) -> u64
        requires { IsReadableSerial self.now }
        ensures positions { result ≡ serial_positions self.now }
        ensures small { result ≤ 3040001 }
    {
        positions_from(self.low(self.periods + 1), self.cap)
    }
}

fn is_serial_grid_small(serial: &Serial) -> bool
    requires { IsReadableSerial serial.now }
    ensures meaning { IsTrue result ↔ SerialGridFits serial.now }
    ensures exact { result ≡ serial_grid_fits serial.now }
{
    let positions = serial.positions();
    let rows = u64::from(serial.periods) * serial.holding.as_slice().len() as u64;
    positions <= MOST_POSITIONS && rows * positions <= MOST_CELLS
}

fn sum_of(rates: &[u64]) -> u64
    requires { sum rates.now < 2 ^ 64 }
    ensures { result ≡ sum rates.now }
{
    rates.iter().sum()
}

#[tactic(auto, using(crate::proofs::RateSums::sum_in_range), unfolding(crate::specs::Serial::serial_cost_bound))]
fn serial_cost_bound(serial: &Serial) -> u128
    requires { IsReadableSerial serial.now }
    ensures bound { result ≡ serial_cost_bound serial.now }
    ensures some { 1 ≤ result }
    ensures small { result ≤ 2 ^ 64 }
{
    let rates = serial.stockout
        + sum_of(serial.holding.as_slice())
        + sum_of(serial.unit.as_slice());
    1 + cost_of(
        rates,
        serial.positions() + u64::from(serial.laws.greatest()),
    )
}

fn is_serial_narrow(serial: &Serial) -> bool
    requires { IsRegularSerial serial.now }
    ensures { IsTrue result ↔ (serial_width serial.now ≤ 2 ^ 120) }
{
    let echelons = serial.holding.as_slice().len() as u32;
    let Some(parts) = checked_pow(2 * u128::from(serial.periods), echelons) else {
        return false;
    };
    let Some(weights) = checked_pow(serial.laws.total(), serial.periods) else {
        return false;
    };
    let Some(discounts) = checked_pow(u128::from(serial.discount_den), serial.periods) else {
        return false;
    };
    let cost = serial_cost_bound(serial);
    within(&[parts, cost, weights, discounts], MOST_BITS)
}

impl KindRules for Serial {
    ghost use Rattle.decision_model.specs.Serial.{serial_rules};

    ghost rules = { serial_rules };

    fn kind(&self) -> Kind {
        Kind::Serial
    }

    fn grid_fits(&self) -> bool {
        is_serial_grid_small(self)
    }

    fn width_ok(&self) -> bool {
        is_serial_narrow(self)
    }
}
