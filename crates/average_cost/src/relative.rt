// The span of a certificate.
ghost use Rattle.std.specs.Prelude.{◌≡◌, ◌^◌, ◌*◌, ◌≤◌, pos, sum};
ghost use Rattle.fraction128.specs.Reduced.{lowest_num, lowest_den};
ghost use Rattle.decision_model.specs.Average.{IsValidAverage, average_positions};
ghost use Rattle.value_cert.specs.AverageRules.{IsLeastAverage, lower_in, upper_in, greatest_value, span_num, span_den};
ghost use Rattle.value_cert.specs.AverageValues.{moving};

use decision_model::Average;
use fraction128::{Frac, power};
use value_cert::AverageCert;

// The greatest of a number and all relative values of both tables, over the denominator of the last place.
fn greatest_of(item: &Average, cert: &AverageCert, start: u128) -> u128
    requires valid { IsValidAverage item.now }
    requires certified { IsLeastAverage item.now cert.now }
    requires start { start ≤ 2 ^ 119 }
    ensures { result ≡ greatest_value (sum (moving item.now.law)) (upper_in cert.now) (greatest_value (sum (moving item.now.law)) (lower_in cert.now) start) }
{
    let moving = item.law.total() - item.law.weight(0);
    let cells = cert.cells.as_slice();
    let mut most = start;
    let mut power = 1;
    for back in 0..cells.len() {
        let cell = cells[cells.len() - 1 - back];
        most = most.max(cell.lower * power).max(cell.upper * power);
        power *= moving;
    }
    most
}

// A number that fits, as a signed one.
fn signed(number: u128) -> i128
    requires { number ≤ 2 ^ 119 }
    ensures { result ≡ pos number }
{
    number as i128
}

/// The span of a certificate: the greatest of the setup cost and all relative values of both tables, in lowest terms.
pub fn span(item: &Average, cert: &AverageCert) -> Frac
    requires valid { IsValidAverage item.now }
    requires certified { IsLeastAverage item.now cert.now }
    ensures num { result.num ≡ lowest_num (pos (span_num item.now cert.now)) (span_den item.now cert.now) }
    ensures den { result.den ≡ lowest_den (pos (span_num item.now cert.now)) (span_den item.now cert.now) }
{
    let moving = item.law.total() - item.law.weight(0);
    let weights = power(item.law.total(), item.lead);
    let places = power(moving, item.positions() as u32);
    let den = cert.den * weights * places;
    let setup = u128::from(item.setup) * den;
    Frac::new(signed(greatest_of(item, cert, setup)), den)
}
