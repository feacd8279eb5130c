// The numbers that the rules of all places share.
ghost use Rattle.decision_model.specs.WideAverage.{IsWideAverage};
ghost use Rattle.bracket_terms.specs.Sizes.{AreSizes};

use decision_model::limits::PARTS;
use decision_model::{Average, average_cost_bound};

/// The numbers that the rules of all places share.
#[derive(Clone, Copy, Debug)]
pub struct Sizes {
    /// The sum of all weights.
    pub total: u128,
    /// The sum of the weights of the demands above 0.
    pub moving: u128,
    /// The setup cost, in parts.
    pub setup: u128,
    /// The greatest bound.
    pub most: u128,
    /// By how much upper entries are raised, so that none is below 0.
    pub raise: u128,
    /// How many places there are.
    pub count: usize,
}

/// The numbers of an instance.
pub(crate) fn sizes_of(item: &Average) -> Sizes
    requires { IsWideAverage item.now }
    ensures { AreSizes item.now result }
{
    let total = item.law.total();
    let count = item.positions();
    let most = PARTS * (u128::from(item.setup) + average_cost_bound(item));
    Sizes {
        total,
        moving: total - item.law.weight(0),
        setup: u128::from(item.setup) * PARTS,
        most,
        raise: 2 * u128::from(count) * most * total,
        count: count as usize,
    }
}
