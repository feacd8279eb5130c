// What is left of a position and what lacks, over a list of weights of demands.
ghost use Rattle.std.specs.Prelude.{◌≡◌, ℕ, ◌+◌, ◌-◌, ◌*◌, ◌^◌, ◌<◌, ◌≤◌, ℤ, pos, ◌-ℤ◌, ◌≤ℤ◌, sum, unsigned_abs};
ghost use Rattle.model_terms.specs.Positions.{above_zero};
ghost use Rattle.least_values.specs.Stock.{AreWeights, HasRoom, cost_at, stock_cost, upto, weight_at};

use model_terms::above_zero;

/// The weight of the demand that a position is; 0 where it is none.
pub fn weight_at(weights: &[u128], position: i64) -> u128
    ensures { result ≡ weight_at weights.now position }
{
    let Ok(demand) = usize::try_from(position) else {
        return 0;
    };
    weights.get(demand).copied().unwrap_or(0)
}

/// The sum of the weights.
pub fn total(weights: &[u128]) -> u128
    requires { sum weights.now ≤ 2 ^ 120 }
    ensures { result ≡ sum weights.now }
{
    let mut total = 0;
    for weight in weights {
        total += *weight;
    }
    total
}

/// The sum of the weights of the demands up to a position.
pub fn upto(weights: &[u128], position: i64) -> u128
    requires weights { AreWeights weights.now }
    requires near { unsigned_abs position ≤ 1000000000 }
    ensures { result ≡ upto weights.now position }
{
    let demands = above_zero(position + 1) as usize;
    total(&weights[..demands.min(weights.len())])
}

// What a position costs at a demand.
fn cost_at(over: u64, under: u64, position: i64, demand: usize) -> u128
    requires position { unsigned_abs position ≤ 1000000000 }
    requires demand { demand ≤ 4000000001 }
    ensures { result ≡ cost_at over under position demand }
{
    let demand = demand as i64;
    let left = above_zero(position - demand);
    let lacks = above_zero(demand - position);
    u128::from(over) * u128::from(left) + u128::from(under) * u128::from(lacks)
}

/// The cost of a position over all demands, times the sum of the weights.
pub fn cost_of_stock(weights: &[u128], over: u64, under: u64, position: i64) -> i128
    requires weights { AreWeights weights.now }
    requires room { HasRoom over under weights.now position }
    ensures { result ≡ stock_cost over under weights.now position }
{
    let mut cost = 0u128;
    for (demand, weight) in weights.iter().enumerate() {
        cost += *weight * cost_at(over, under, position, demand);
    }
    cost as i128
}
