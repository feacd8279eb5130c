// The average kind.
ghost use Rattle.std.specs.Prelude.{◌↔◌, IsTrue};
ghost use Rattle.decision_model.specs.Average.{IsReadableAverage};
ghost use Rattle.valid_instances.specs.Rules.{KeepsAverageRules};

use crate::laws::is_demand_law;
use crate::positions::{is_position, is_position_to};
use decision_model::limits::{MOST_LEAD, MOST_RATE, MOST_SETUP};
use decision_model::{Average, has_demand, is_unit_demand};

// Whether numbers are in range.
pub(crate) fn is_readable_average(average: &Average) -> bool
    ensures { IsTrue result ↔ IsReadableAverage average.now }
{
    if average.lead > MOST_LEAD || average.setup > MOST_SETUP {
        return false;
    }
    if average.holding > MOST_RATE || average.stockout > MOST_RATE {
        return false;
    }
    is_demand_law(&average.law)
        && is_position(average.cap)
        && is_position_to(average.floor, average.cap)
}

// Whether some demand is above 0, and none above 1 where lots are ordered.
pub(crate) fn keeps_average_rules(average: &Average) -> bool
    ensures { IsTrue result ↔ KeepsAverageRules average.now }
{
    has_demand(average) && (!average.lots || is_unit_demand(average))
}
