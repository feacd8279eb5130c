// An average cost.
ghost use Rattle.std.specs.Prelude.{◌≡◌, ℕ, ◌*◌, ◌^◌, ◌≤◌};
ghost use Rattle.decision_model.specs.Average.{IsValidAverage};
ghost use Rattle.value_cert.specs.AverageRules.{is_gain};
ghost use Rattle.average_recursion.specs.Rows.{AreTerms, IsSmallRatio, IsGain, ratio_of};

use crate::bound::cost_bound;
use crate::terms::Terms;
use decision_model::Average;
use fraction128::gcd;

// An average cost `num / den`, and what it brings to the equations over the denominator of the last position.
#[derive(Clone, Copy, Debug)]
pub(crate) struct Gain {
    pub(crate) num: u128,
    pub(crate) den: u128,
    // The factor on the cost of a period.
    pub(crate) stock: u128,
    // The setup cost, which is the relative value below the floor.
    pub(crate) below: u128,
    // The average cost of a period.
    pub(crate) loss: u128,
}

// Whether an average cost is in lowest terms, and both its numbers are in range.
pub(crate) fn is_gain(average: &Average, terms: &Terms, num: u128, den: u128) -> bool
    requires valid { IsValidAverage average.now }
    requires terms { AreTerms average.now terms.now }
    ensures { result ≡ is_gain average.now num den }
{
    if den < 1 {
        return false;
    }
    if den > terms.positions as u128 * terms.unit * terms.last {
        return false;
    }
    if gcd(num, den) != 1 {
        return false;
    }
    num <= den * (u128::from(average.setup) + cost_bound(average))
}

pub(crate) fn gain_of(average: &Average, terms: &Terms, num: u128, den: u128) -> Gain
    requires valid { IsValidAverage average.now }
    requires terms { AreTerms average.now terms.now }
    requires small { IsSmallRatio average.now (record { num = num; den = den }) }
    ensures gain { IsGain average.now result }
    ensures ratio { ratio_of result ≡ record { num = num; den = den } }
{
    let stock = den * terms.last;
    Gain {
        num,
        den,
        stock,
        below: u128::from(average.setup) * (stock * terms.weights),
        loss: num * (terms.unit * terms.last),
    }
}

// Over the denominator of a position, `power` of which make that of the last one: what ordering costs there.
pub(crate) fn limit_at(gain: &Gain, terms: &Terms, power: u128) -> u128
    requires fits { gain.now.below * terms.now.moving ≤ 2 ^ 120 }
    requires some { 1 ≤ power }
    ensures { (limit : ℕ) → gain.now.below * terms.now.moving ≡ limit * power → result ≡ limit }
{
    gain.below * terms.moving / power
}
