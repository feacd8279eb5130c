// The least level by the critical ratio, and the cost of any level.
ghost use Rattle.std.specs.Prelude.{◌≡◌, ℕ, ◌+◌, ◌*◌, ◌^◌, ◌<◌, ◌≤◌, sum, length, pos, ◌*ℤ◌};
ghost use Rattle.demand_law.specs.Law.{upto_of};
ghost use Rattle.fraction128.specs.Reduced.{lowest_num, lowest_den};
ghost use Rattle.newsvendor.specs.Cost.{mismatch_cost};
ghost use Rattle.newsvendor.specs.Least.{first_least_upto};
ghost use Rattle.newsvendor.specs.Level.{cost_of, LeastLevel};

use crate::Newsvendor;
use fraction128::Frac;

/// A level and its expected cost.
#[derive(Clone, Copy, Debug, PartialEq, Eq)]
pub struct NewsCert {
    /// The order-up-to level.
    pub q: u32,
    /// The expected cost times the sum of the law's weights.
    pub cost: u128,
}

// What a level costs at a demand.
fn cost_at_demand(item: &Newsvendor, level: usize, demand: usize) -> u128
    requires level { level ≤ 10001 }
    requires demand { demand ≤ 10001 }
    ensures { result ≡ mismatch_cost item.now.holding item.now.stockout level demand }
{
    let left = level.saturating_sub(demand);
    let lacking = demand.saturating_sub(level);
    u128::from(item.holding) * left as u128 + u128::from(item.stockout) * lacking as u128
}

/// The expected cost of a level, times the sum of the weights.
pub fn weighted_cost(item: &Newsvendor, level: u32) -> u128
    requires { level ≤ 10001 }
    ensures cost { pos result ≡ cost_of item.now level }
    ensures small { result ≤ 20002000000000000000 }
{
    let weights = item.law.weights();
    let mut cost = 0u128;
    for (demand, weight) in weights.iter().enumerate() {
        cost += *weight * cost_at_demand(item, level as usize, demand);
    }
    cost
}

// The first level whose weights reach the critical ratio stockout/(holding + stockout).
fn critical_level(item: &Newsvendor) -> u32
    ensures within { result < length item.now.law }
    ensures in_range { result ≤ 10000 }
    ensures reached { item.now.stockout * sum item.now.law ≤ (item.now.holding + item.now.stockout) * upto_of item.now.law result }
    ensures first { (k : ℕ) → k < result →
        (item.now.holding + item.now.stockout) * upto_of item.now.law k < item.now.stockout * sum item.now.law }
{
    let ratio = u128::from(item.holding) + u128::from(item.stockout);
    let target = u128::from(item.stockout) * item.law.total();
    let mut upto = 0u128;
    for (level, weight) in item.law.weights().iter().enumerate() {
        upto += *weight;
        if ratio * upto >= target {
            return level as u32;
        }
    }
    unreachable!()
}

/// The least order-up-to level of least expected cost, and that cost: no natural level costs less, and each lower one
/// costs more. It is the first level q whose weights up to q are at least stockout/(holding + stockout) of all weights.
pub fn solve_newsvendor(item: &Newsvendor) -> NewsCert
    ensures level { LeastLevel item.now result.q }
    ensures cost { pos result.cost ≡ cost_of item.now result.q }
    ensures exact { result.q ≡ first_least_upto (cost_of item.now) (length item.now.law) }
    ensures within { result.q < length item.now.law }
    ensures in_range { result.q ≤ 10000 }
    ensures small { result.cost ≤ 2 ^ 120 }
{
    let q = critical_level(item);
    NewsCert {
        q,
        cost: weighted_cost(item, q),
    }
}

/// The expected cost of a level.
pub fn cost_at(item: &Newsvendor, q: u32) -> Frac
    requires { q ≤ 10000 }
    ensures value { (result.num *ℤ pos (sum item.now.law)) ≡ (cost_of item.now q *ℤ pos result.den) }
    ensures num { result.num ≡ lowest_num (cost_of item.now q) (sum item.now.law) }
    ensures den { result.den ≡ lowest_den (cost_of item.now q) (sum item.now.law) }
{
    let cost = weighted_cost(item, q);
    Frac::new(cost as i128, item.law.total())
}
