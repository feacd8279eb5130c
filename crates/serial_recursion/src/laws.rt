// The law of a period.
ghost use Rattle.std.specs.Prelude.{◌≡◌, ◌≤◌};
ghost use Rattle.demand_law.specs.Law.{IsLaw};
ghost use Rattle.decision_model.specs.Serial.{IsReadableSerial};
ghost use Rattle.decision_model.specs.SerialProblem.{law_of_period};

use decision_model::Serial;

// The weights of the law of a period.
pub(crate) fn weights_of(serial: &Serial, period: u32) -> &[u128]
    requires readable { IsReadableSerial serial.now }
    requires from_one { 1 ≤ period }
    requires within { period ≤ serial.now.periods }
    ensures weights { result.now ≡ law_of_period serial.now period }
    ensures law { IsLaw result.now }
{
    let laws = serial.laws.as_slice();
    if laws.len() == 1 {
        laws[0].weights()
    } else {
        laws[period as usize - 1].weights()
    }
}
