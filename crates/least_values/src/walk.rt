// The cost of positions, one after another, over a list of weights of demands.
ghost use Rattle.std.specs.Prelude.{◌≡◌, ℕ, ◌+◌, ◌-◌, ◌*◌, ◌^◌, ◌≤◌, ℤ, pos, ◌+ℤ◌, ◌-ℤ◌, ◌≤ℤ◌, List, unsigned_abs};

use crate::stock::{cost_of_stock, total, upto, weight_at};

/// A position, and what is left and what lacks there over all demands: the sum over the demands d of
/// weight(d) · (over · (y − d)⁺ + under · (d − y)⁺), y being the position. A step takes a few operations.
#[derive(Clone, Copy, Debug)]
pub struct Walk {
    over: u64,
    under: u64,
    at: i64,
    // The sum of the weights of the demands up to the position.
    upto: u128,
    // The sum of all weights.
    total: u128,
    value: i128,
}

impl Walk {
    ghost use Rattle.least_values.specs.Stock.{AreWeights, HasRoom, stock_cost};
    ghost use Rattle.least_values.specs.Walks.{IsWalk, IsWalkOf, place_of, over_of, under_of};

    /// A walk that stands at a position. The weights are those of the demands from 0 up.
    pub fn new(weights: &[u128], over: u64, under: u64, from: i64) -> Walk
        requires weights { AreWeights weights.now }
        requires room { HasRoom over under weights.now from }
        ensures stands { IsWalkOf result over under weights.now }
        ensures place { place_of result ≡ from }
    {
        Walk {
            over,
            under,
            at: from,
            upto: upto(weights, from),
            total: total(weights),
            value: cost_of_stock(weights, over, under, from),
        }
    }

    /// The position.
    pub fn at(&self) -> i64
        ensures { result ≡ place_of self.now }
    {
        self.at
    }

    /// The cost of the position, times the sum of the weights.
    pub fn value(&self) -> i128
        ensures { (over under : ℕ) (weights : List ℕ) → IsWalkOf self.now over under weights →
            result ≡ stock_cost over under weights (place_of self.now) }
    {
        self.value
    }

    // How much the cost changes with the step up.
    fn change(&self) -> i128
        requires upto { self.now.upto ≤ self.now.total }
        requires left { self.now.over * self.now.upto ≤ 2 ^ 126 }
        requires lacks { self.now.under * (self.now.total - self.now.upto) ≤ 2 ^ 126 }
        ensures { result ≡ pos (self.now.over * self.now.upto) -ℤ pos (self.now.under * (self.now.total - self.now.upto)) }
    {
        let left = u128::from(self.over) * self.upto;
        let lacks = u128::from(self.under) * (self.total - self.upto);
        left as i128 - lacks as i128
    }

    /// Goes one position up.
    pub fn up(&mut self, weights: &[u128])
        requires weights { AreWeights weights.now }
        requires stands { IsWalk self.old weights.now }
        requires room { HasRoom (over_of self.old) (under_of self.old) weights.now (place_of self.old) }
        requires next { HasRoom (over_of self.old) (under_of self.old) weights.now (place_of self.old +ℤ pos 1) }
        ensures place { place_of self.new ≡ place_of self.old +ℤ pos 1 }
        ensures stands { (over under : ℕ) → IsWalkOf self.old over under weights.now → IsWalkOf self.new over under weights.now }
    {
        let at = above(self.at);
        self.value = plus(self.value, self.change());
        self.upto += weight_at(weights, at);
        self.at = at;
    }

    /// Goes one position down.
    pub fn down(&mut self, weights: &[u128])
        requires weights { AreWeights weights.now }
        requires stands { IsWalk self.old weights.now }
        requires room { HasRoom (over_of self.old) (under_of self.old) weights.now (place_of self.old) }
        requires next { HasRoom (over_of self.old) (under_of self.old) weights.now (place_of self.old -ℤ pos 1) }
        ensures place { place_of self.new ≡ place_of self.old -ℤ pos 1 }
        ensures stands { (over under : ℕ) → IsWalkOf self.old over under weights.now → IsWalkOf self.new over under weights.now }
    {
        self.upto -= weight_at(weights, self.at);
        self.at = below(self.at);
        self.value = minus(self.value, self.change());
    }
}

// The position above one.
fn above(at: i64) -> i64
    requires { unsigned_abs at ≤ 1000000000 }
    ensures { result ≡ at +ℤ pos 1 }
{
    at + 1
}

// The position below one.
fn below(at: i64) -> i64
    requires { unsigned_abs at ≤ 1000000000 }
    ensures { result ≡ at -ℤ pos 1 }
{
    at - 1
}

// A cost that has changed, which is a cost again.
fn plus(cost: i128, change: i128) -> i128
    requires least { pos 0 ≤ℤ (cost +ℤ change) }
    requires most { (cost +ℤ change) ≤ℤ pos (2 ^ 126) }
    ensures { result ≡ cost +ℤ change }
{
    cost + change
}

// A cost before it changed.
fn minus(cost: i128, change: i128) -> i128
    requires least { pos 0 ≤ℤ (cost -ℤ change) }
    requires most { (cost -ℤ change) ≤ℤ pos (2 ^ 126) }
    ensures { result ≡ cost -ℤ change }
{
    cost - change
}
