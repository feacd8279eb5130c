// The serial kind.
ghost use Rattle.std.specs.Prelude.{◌↔◌, IsTrue};
ghost use Rattle.decision_model.specs.Serial.{IsReadableSerial};

use crate::amounts::are_one_a_place;
use crate::laws::are_demand_laws;
use crate::positions::{are_never_falling, are_positions, is_cap, is_position_to};
use crate::rates::{is_discount, is_horizon};
use decision_model::Serial;
use decision_model::limits::{MOST_ECHELONS, MOST_RATE};

// Whether there are from 1 to 8 echelons with rates and a start each, numbers in range, and a law or one each for all
// periods.
pub(crate) fn is_readable_serial(serial: &Serial) -> bool
    ensures { IsTrue result ↔ IsReadableSerial serial.now }
{
    let echelons = serial.holding.as_slice().len();
    if echelons < 1 || echelons > MOST_ECHELONS || !is_horizon(serial.periods) {
        return false;
    }
    if !are_one_a_place(serial.holding.as_slice(), echelons, MOST_RATE)
        || !are_one_a_place(serial.unit.as_slice(), echelons, MOST_RATE)
        || serial.stockout > MOST_RATE
    {
        return false;
    }
    let start = serial.start.as_slice();
    if start.len() != echelons || !are_positions(start) || !are_never_falling(start) {
        return false;
    }
    is_discount(serial.discount_num, serial.discount_den)
        && are_demand_laws(serial.laws.as_slice(), serial.periods as usize)
        && is_cap(serial.cap)
        && is_position_to(start[echelons - 1], serial.cap)
}
