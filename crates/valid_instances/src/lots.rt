// Lot sizing.
ghost use Rattle.std.specs.Prelude.{◌↔◌, IsTrue};
ghost use Rattle.decision_model.specs.Lots.{IsReadableLots, HasNoSpeculation};

use crate::amounts::are_one_a_place;
use decision_model::limits::{MOST_LOT_DEMAND, MOST_LOT_PERIODS, MOST_LOT_SETUP, MOST_RATE};
use decision_model::{LotSize, speculative_period};

// Whether there are from 1 to 2,000 periods, each with a demand and rates in range.
pub(crate) fn is_readable_lots(lots: &LotSize) -> bool
    ensures { IsTrue result ↔ IsReadableLots lots.now }
{
    let periods = lots.demand.as_slice().len();
    1 <= periods
        && periods <= MOST_LOT_PERIODS
        && are_one_a_place(lots.demand.as_slice(), periods, MOST_LOT_DEMAND)
        && are_one_a_place(lots.setup.as_slice(), periods, MOST_LOT_SETUP)
        && are_one_a_place(lots.unit.as_slice(), periods, MOST_RATE)
        && are_one_a_place(lots.holding.as_slice(), periods, MOST_RATE)
}

// Whether no period has speculative costs.
pub(crate) fn has_no_speculation(lots: &LotSize) -> bool
    requires { IsReadableLots lots.now }
    ensures { IsTrue result ↔ HasNoSpeculation lots.now }
{
    speculative_period(lots).is_none()
}
