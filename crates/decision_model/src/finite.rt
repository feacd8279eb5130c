// The finite kind.
ghost use Rattle.std.specs.Prelude.{◌≡◌, ◌↔◌, ◌+◌, ◌^◌, ◌≤◌, IsTrue};
ghost use Rattle.decision_model.specs.Finite.{IsReadableFinite, FiniteGridFits, finite_grid_fits, finite_cost_bound, finite_width, IsRegularFinite};

use crate::kinds::Kind;
use crate::limits::{MOST_BITS, MOST_CELLS, MOST_FINITE_POSITIONS};
use crate::rules::KindRules;
use crate::width::{cost_of, most_lacking};
use fraction128::{checked_pow, within};
use model_terms::{Laws, above_zero, low_after, positions_from};

/// Uncertain demand over a finite horizon, with a setup cost and a lead time, after Scarf (1960).
#[derive(Drop)]
pub struct Finite {
    pub periods: u32,
    /// The periods that an order takes.
    pub lead: u32,
    /// The cost of an order of any size.
    pub setup: u64,
    /// The cost of each unit ordered.
    pub unit: u64,
    /// The cost of each unit that is left after a period's demand.
    pub holding: u64,
    /// The cost of each unit that lacks after a period's demand.
    pub stockout: u64,
    /// The cost of each unit of the position after the last period, where it is above 0.
    pub end_holding: u64,
    /// The cost of each unit that the position after the last period is below 0.
    pub end_stockout: u64,
    /// The factor on the cost of each later period is `discount_num / discount_den`.
    pub discount_num: u32,
    pub discount_den: u32,
    /// One law that serves every period, or one each for `periods + lead` periods.
    pub laws: Laws,
    /// The greatest position to order up to.
    pub cap: i64,
    /// The position before the first order.
    pub start: i64,
    /// The greatest order of a period, if there is one.
    pub most: Option<u64>,
}

impl Finite {
    ghost use Rattle.std.specs.Prelude.{◌≡◌, ◌+◌, ◌≤◌, unsigned_abs};
    ghost use Rattle.decision_model.specs.Finite.{IsReadableFinite, finite_low, finite_positions};

    /// The low end of the grid in a period, from 1 to the one after the last.
    pub fn low(&self, period: u32) -> i64
        requires readable { IsReadableFinite self.now }
        requires from_one { 1 ≤ period }
        requires within { period ≤ self.now.periods + 1 }
        ensures low { result ≡ finite_low self.now period }
        ensures small { unsigned_abs result ≤ 2040000 }
    {
        low_after(self.start, self.laws.greatest(), period - 1)
    }

    /// How many positions the grid has after the last period.
    #[tactic(auto, unfolding(crate::specs::Finite::finite_positions))]
    pub fn positions(&self) -> u64
        requires { IsReadableFinite self.now }
        ensures positions { result ≡ finite_positions self.now }
        ensures small { result ≤ 3040001 }
    {
        positions_from(self.low(self.periods + 1), self.cap)
    }
}

fn is_finite_grid_small(finite: &Finite) -> bool
    requires { IsReadableFinite finite.now }
    ensures meaning { IsTrue result ↔ FiniteGridFits finite.now }
    ensures exact { result ≡ finite_grid_fits finite.now }
{
    let positions = finite.positions();
    positions <= MOST_FINITE_POSITIONS && u64::from(finite.periods) * positions <= MOST_CELLS
}

#[tactic(auto, unfolding(crate::specs::Finite::finite_cost_bound))]
fn finite_cost_bound(finite: &Finite) -> u128
    requires { IsReadableFinite finite.now }
    ensures bound { result ≡ finite_cost_bound finite.now }
    ensures some { 1 ≤ result }
    ensures small { result ≤ 2 ^ 64 }
{
    let positions = finite.positions();
    let low = finite.low(finite.periods + 1);
    let lacking = most_lacking(finite.lead, finite.laws.greatest(), low);
    1 + u128::from(finite.setup)
        + cost_of(finite.unit, positions)
        + cost_of(finite.holding, above_zero(finite.cap))
        + cost_of(finite.stockout, lacking)
        + cost_of(finite.end_holding + finite.end_stockout, positions)
}

fn is_finite_narrow(finite: &Finite) -> bool
    requires { IsRegularFinite finite.now }
    ensures { IsTrue result ↔ (finite_width finite.now ≤ 2 ^ 120) }
{
    let Some(weights) = checked_pow(finite.laws.total(), finite.periods + finite.lead) else {
        return false;
    };
    let Some(discounts) = checked_pow(u128::from(finite.discount_den), finite.periods) else {
        return false;
    };
    let cost = finite_cost_bound(finite);
    within(
        &[u128::from(finite.periods), cost, weights, discounts],
        MOST_BITS,
    )
}

impl KindRules for Finite {
    ghost use Rattle.decision_model.specs.Finite.{finite_rules};

    ghost rules = { finite_rules };

    fn kind(&self) -> Kind {
        Kind::Finite
    }

    fn grid_fits(&self) -> bool {
        is_finite_grid_small(self)
    }

    fn width_ok(&self) -> bool {
        is_finite_narrow(self)
    }
}
