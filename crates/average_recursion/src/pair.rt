// A pair of positions.
ghost use Rattle.std.specs.Prelude.{◌≡◌, ◌≤◌, pos, ◌-ℤ◌, unsigned_abs};
ghost use Rattle.decision_model.specs.Average.{IsValidAverage};
ghost use Rattle.value_cert.specs.AverageRules.{is_pair};

use decision_model::Average;

// The position below one.
fn below(at: i64) -> i128
    requires { unsigned_abs at ≤ 1000000 }
    ensures { result ≡ at -ℤ pos 1 }
{
    i128::from(at) - 1
}

// Whether a pair is in order on the grid; its lower position may be one below the floor.
pub(crate) fn is_pair(average: &Average, low: i128, high: i128) -> bool
    requires { IsValidAverage average.now }
    ensures { result ≡ is_pair average.now low high }
{
    if low < below(average.floor) {
        return false;
    }
    if low >= high {
        return false;
    }
    high <= i128::from(average.cap)
}
