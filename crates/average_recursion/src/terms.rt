// What the equations of all positions take of an instance.
ghost use Rattle.std.specs.Prelude.{◌≡◌, ◌^◌, ◌≤◌};
ghost use Rattle.decision_model.specs.Average.{IsValidAverage, average_positions};
ghost use Rattle.average_recursion.specs.Rows.{AreTerms};

use decision_model::Average;
use fraction128::power;

// Sums of weights, and their powers.
#[derive(Clone, Copy, Debug)]
pub(crate) struct Terms {
    // How many positions there are.
    pub(crate) positions: usize,
    // The sum of the weights of the demands above 0.
    pub(crate) moving: u128,
    // The sum of all weights, once for each period of the lead time.
    pub(crate) weights: u128,
    // The same with one period more.
    pub(crate) unit: u128,
    // The sum of the weights of the demands above 0, once for each position but one.
    pub(crate) last: u128,
}

pub(crate) fn terms_of(average: &Average) -> Terms
    requires { IsValidAverage average.now }
    ensures { AreTerms average.now result }
{
    let total = average.law.total();
    let moving = total - average.law.weight(0);
    let positions = average.positions() as usize;
    let weights = power(total, average.lead);
    Terms {
        positions,
        moving,
        weights,
        unit: weights * total,
        last: power(moving, positions as u32 - 1),
    }
}
