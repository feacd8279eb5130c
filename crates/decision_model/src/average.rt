// The average kind.
ghost use Rattle.std.specs.Prelude.{◌≡◌, ◌↔◌, ◌^◌, ◌≤◌, IsTrue};
ghost use Rattle.decision_model.specs.Average.{IsReadableAverage, HasDemand, has_demand, IsUnitDemand, is_unit_demand, average_cost_bound, average_width, IsRegularAverage};

use crate::kinds::Kind;
use crate::limits::{MOST_BITS, MOST_POSITIONS};
use crate::rules::KindRules;
use crate::width::{cost_of, most_lacking};
use demand_law::Law;
use fraction128::{checked_pow, within};
use model_terms::{above_zero, positions_from};

/// Uncertain demand of one law in every period, at least average cost.
#[derive(Drop)]
pub struct Average {
    /// The periods that an order takes.
    pub lead: u32,
    /// The cost of an order of any size.
    pub setup: u64,
    /// The cost of each unit that is left after a period's demand.
    pub holding: u64,
    /// The cost of each unit that lacks after a period's demand.
    pub stockout: u64,
    pub law: Law,
    /// The least position to order up to.
    pub floor: i64,
    /// The greatest position to order up to.
    pub cap: i64,
    /// Whether the policy is a reorder point with a lot.
    pub lots: bool,
}

impl Average {
    ghost use Rattle.std.specs.Prelude.{◌≡◌, ◌≤◌};
    ghost use Rattle.decision_model.specs.Average.{IsReadableAverage, average_positions};

    /// How many positions the grid has.
    #[tactic(auto, unfolding(crate::specs::Average::average_positions))]
    pub fn positions(&self) -> u64
        requires { IsReadableAverage self.now }
        ensures positions { result ≡ average_positions self.now }
        ensures small { result ≤ 3040001 }
    {
        positions_from(self.floor, self.cap)
    }
}

/// Whether some demand above 0 has a weight.
pub fn has_demand(average: &Average) -> bool
    ensures meaning { IsTrue result ↔ HasDemand average.now.law }
    ensures exact { result ≡ has_demand average.now.law }
{
    average.law.weight(0) < average.law.total()
}

/// Whether no demand is above 1.
pub fn is_unit_demand(average: &Average) -> bool
    ensures meaning { IsTrue result ↔ IsUnitDemand average.now.law }
    ensures exact { result ≡ is_unit_demand average.now.law }
{
    average.law.greatest() <= 1
}

/// A whole number above each cost of a period, its setup cost aside.
#[tactic(auto, unfolding(crate::specs::Average::average_cost_bound))]
pub fn average_cost_bound(average: &Average) -> u128
    requires { IsReadableAverage average.now }
    ensures bound { result ≡ average_cost_bound average.now }
    ensures some { 1 ≤ result }
    ensures small { result ≤ 2 ^ 64 }
{
    let lacking = most_lacking(average.lead, average.law.greatest(), average.floor);
    1 + cost_of(average.holding, above_zero(average.cap)) + cost_of(average.stockout, lacking)
}

fn is_average_narrow(average: &Average) -> bool
    requires { IsRegularAverage average.now }
    ensures { IsTrue result ↔ (average_width average.now ≤ 2 ^ 120) }
{
    let positions = average.positions() as u32;
    let total = average.law.total();
    let Some(weights) = checked_pow(total, 2 * average.lead + 2) else {
        return false;
    };
    let Some(moving) = checked_pow(total - average.law.weight(0), 2 * positions - 2) else {
        return false;
    };
    let positions = u128::from(positions);
    let cost = u128::from(average.setup) + average_cost_bound(average);
    within(&[2, positions, positions, cost, weights, moving], MOST_BITS)
}

impl KindRules for Average {
    ghost use Rattle.decision_model.specs.Average.{average_rules};

    ghost rules = { average_rules };

    fn kind(&self) -> Kind {
        Kind::Average
    }

    fn grid_fits(&self) -> bool {
        self.positions() <= MOST_POSITIONS
    }

    fn width_ok(&self) -> bool {
        is_average_narrow(self)
    }
}
