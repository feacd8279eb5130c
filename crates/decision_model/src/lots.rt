// Lot sizing.
ghost use Rattle.std.specs.Prelude.{◌≡◌, MatchOption};
ghost use Rattle.decision_model.specs.Lots.{IsReadableLots, speculative_period_of, IsFirstSpeculative, HasNoSpeculation};

use crate::kinds::Kind;
use crate::rules::KindRules;
use model_terms::Amounts;

/// Known demand that orders have to cover, after Wagner and Whitin (1958). All lists have one entry a period.
#[derive(Drop)]
pub struct LotSize {
    /// Units demanded in each period.
    pub demand: Amounts,
    /// The cost of an order of any size in each period.
    pub setup: Amounts,
    /// The cost of each unit ordered in each period.
    pub unit: Amounts,
    /// The cost of each unit in stock at the end of each period.
    pub holding: Amounts,
}

/// The first period, from 1, with speculative costs: a unit ordered then and held costs less than one ordered a period
/// later. `None` where no period has them.
pub fn speculative_period(lots: &LotSize) -> Option<u32>
    requires { IsReadableLots lots.now }
    ensures meaning { MatchOption result (HasNoSpeculation lots.now) (IsFirstSpeculative lots.now) }
    ensures exact { result ≡ speculative_period_of lots.now }
{
    let unit = lots.unit.as_slice();
    let holding = lots.holding.as_slice();
    for period in 1..unit.len() {
        if unit[period - 1] + holding[period - 1] < unit[period] {
            return Some(period as u32);
        }
    }
    None
}

impl KindRules for LotSize {
    ghost use Rattle.decision_model.specs.Lots.{lots_rules};

    ghost rules = { lots_rules };

    fn kind(&self) -> Kind {
        Kind::Lots
    }

    fn grid_fits(&self) -> bool {
        true
    }

    fn width_ok(&self) -> bool {
        true
    }
}
