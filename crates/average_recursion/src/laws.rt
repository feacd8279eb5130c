// The laws that the sums hold.
ghost use Rattle.std.specs.Prelude.{◌≡◌, ◌<◌, length};
ghost use Rattle.decision_model.specs.Average.{IsValidAverage};
ghost use Rattle.value_cert.specs.AverageValues.{moving};
ghost use Rattle.average_recursion.specs.Laws.{HoldsLaws};
ghost use Rattle.average_recursion.specs.Tables.{sums_needed};

use decision_model::Average;
use demand_law::{Law, lead_into};
use finite_recursion::list_demands;
use std::slice;

// Where the sums hold the law of the lead time, from the first place on, and the demands above 0 that have a weight.
#[derive(Clone, Copy, Debug)]
pub(crate) struct HeldLaws {
    // How many weights the law of the lead time has.
    pub(crate) lead: usize,
    // The place of the first demand.
    pub(crate) half: usize,
    // How many demands there are. One less than a demand stands for it.
    pub(crate) listed: usize,
}

// The weights from demand 1 up.
pub(crate) fn moving_weights(law: &Law) -> &[u128]
    ensures { result.now ≡ moving law.now }
{
    &law.weights()[1..]
}

// Puts the law of the lead time, and the demands above 0, into the sums.
pub(crate) fn hold_laws(average: &Average, sums: &mut [u128]) -> HeldLaws
    requires valid { IsValidAverage average.now }
    requires room { length sums.old ≡ sums_needed average.now }
    ensures same { length sums.new ≡ length sums.old }
    ensures holds { HoldsLaws average.now result sums.new }
{
    let count = average.lead as usize + 1;
    let lead = lead_into(slice::from_ref(&average.law), 0, count, sums);
    let half = count * average.law.greatest() as usize + 1;
    let (_, demands) = sums.split_at_mut(half);
    let listed = list_demands(moving_weights(&average.law), demands);
    HeldLaws { lead, half, listed }
}
