// The cost rates of an echelon.
ghost use Rattle.std.specs.Prelude.{◌≡◌, ◌^◌, ◌<◌, ◌≤◌, length, sum};
ghost use Rattle.decision_model.specs.Serial.{IsReadableSerial};
ghost use Rattle.decision_model.specs.SerialProblem.{lacking_rate};
ghost use Rattle.serial_recursion.specs.Rows.{lacking_of, rates_for};

use decision_model::Serial;

#[derive(Clone, Copy, Debug)]
pub(crate) struct Rates {
    pub(crate) holding: u64,
    // On each unit that lacks: 0 but for the first echelon.
    pub(crate) lacking: u64,
    pub(crate) unit: u64,
}

fn sum_of(rates: &[u64]) -> u64
    requires { sum rates.now < 2 ^ 64 }
    ensures { result ≡ sum rates.now }
{
    rates.iter().sum()
}

// What a unit that lacks costs.
fn lacking_rate(serial: &Serial) -> u64
    requires { IsReadableSerial serial.now }
    ensures exact { result ≡ lacking_rate serial.now }
    ensures small { result ≤ 2 ^ 30 }
{
    serial.stockout + sum_of(serial.holding.as_slice())
}

// What a unit that lacks costs an echelon.
fn lacking_of(serial: &Serial, echelon: usize) -> u64
    requires { IsReadableSerial serial.now }
    ensures exact { result ≡ lacking_of serial.now echelon }
    ensures small { result ≤ 2 ^ 30 }
{
    if echelon == 0 {
        lacking_rate(serial)
    } else {
        0
    }
}

// The rates of an echelon, the first being 0.
pub(crate) fn rates_of(serial: &Serial, echelon: usize) -> Rates
    requires readable { IsReadableSerial serial.now }
    requires within { echelon < length serial.now.holding }
    ensures rates { result ≡ rates_for serial.now echelon }
    ensures holding { result.holding ≤ 2 ^ 30 }
    ensures lacking { result.lacking ≤ 2 ^ 30 }
{
    Rates {
        holding: serial.holding.as_slice()[echelon],
        lacking: lacking_of(serial, echelon),
        unit: serial.unit.as_slice()[echelon],
    }
}
