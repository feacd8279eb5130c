//! The newsvendor: the least order-up-to level of least expected cost for one period of uncertain demand.
#![tactic(auto)]

mod solve;

use demand_law::Law;
pub use solve::{NewsCert, cost_at, solve_newsvendor, weighted_cost};
use std::marker::Model;

/// One order before one period of uncertain demand, as in Arrow, Harris and Marschak (1951).
///
/// A unit that is left costs `holding`, a unit that lacks costs `stockout`. Both rates are at most 1,000,000 and not
/// both 0; the law's greatest demand is at most 10,000 and its weights add up to at most 1,000,000,000.
#[derive(Drop)]
pub struct Newsvendor {
    pub holding: u64,
    pub stockout: u64,
    pub law: Law,
}

impl Model for Newsvendor {
    ghost use Rattle.newsvendor.specs.Item.{NewsvendorItem, IsNewsvendor};

    ghost Value = { NewsvendorItem };

    ghost view = { λ n. record { holding = n.holding; stockout = n.stockout; law = n.law } };

    ghost invariant = { λ n. IsNewsvendor (record { holding = n.holding; stockout = n.stockout; law = n.law }) };
}
