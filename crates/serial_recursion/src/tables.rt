// How much room the recursion works in.
ghost use Rattle.std.specs.Prelude.{◌≡◌};
ghost use Rattle.decision_model.specs.Serial.{IsReadableSerial};
ghost use Rattle.serial_recursion.specs.Tables.{cells_needed};

use decision_model::Serial;

/// How many cells the recursion works in: two rows over the widest grid, and one more for each echelon.
pub fn cells_of(serial: &Serial) -> usize
    requires { IsReadableSerial serial.now }
    ensures { result ≡ cells_needed serial.now }
{
    (serial.holding.as_slice().len() + 2) * serial.positions() as usize
}
