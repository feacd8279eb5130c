// The costs of positions after an order, and the values of orders.
ghost use Rattle.std.specs.Prelude.{◌≡◌, ℕ, ◌*◌, ◌^◌, ◌<◌, ◌≤◌, pos, ◌+ℤ◌, ◌-ℤ◌, ◌*ℤ◌, ◌≤ℤ◌, length, slice_index, sum, IfSome};
ghost use Rattle.finite_recursion.specs.Choices.{order_value, chosen_to, chosen_value};
ghost use Rattle.finite_recursion.specs.Demands.{listed_sum};
ghost use Rattle.finite_recursion.specs.Rows.{value_at};
ghost use Rattle.finite_recursion.specs.declared.recursion.Found.{Found};

use crate::recursion::Found;
use crate::scales::Scales;

// A sum with one more value times its weight.
fn add_weighed(sum: i128, weight: u128, value: i128) -> i128
    requires sum { pos 0 ≤ℤ sum }
    requires weight { weight ≤ 2 ^ 120 }
    requires value { pos 0 ≤ℤ value }
    requires fits { (sum +ℤ pos weight *ℤ value) ≤ℤ pos (2 ^ 120) }
    ensures { result ≡ sum +ℤ pos weight *ℤ value }
{
    sum + weight as i128 * value
}

// The sum over the listed demands of each one's weight times the value that it leads to.
pub(crate) fn weigh(weights: &[u128], listed: &[u128], later: &[i128]) -> i128
    requires within { (i : ℕ) → i < length listed.now → slice_index listed.now i < length weights.now }
    requires room { length weights.now ≤ length later.now }
    requires total { sum weights.now ≤ 2 ^ 120 }
    requires least { (k : ℕ) → k < length weights.now → pos 0 ≤ℤ value_at later.now k }
    requires fits { listed_sum weights.now listed.now (value_at later.now) ≤ℤ pos (2 ^ 120) }
    ensures { result ≡ listed_sum weights.now listed.now (value_at later.now) }
{
    let mut sum = 0i128;
    for demand in listed {
        let demand = *demand as usize;
        sum = add_weighed(sum, weights[demand], later[demand]);
    }
    sum
}

// The cost of a position after the order, of its stock and of what comes later.
pub(crate) fn total_cost(stock_scale: i128, stock: i128, discount: u32, later: i128) -> i128
    requires scale { pos 0 ≤ℤ stock_scale }
    requires stock { pos 0 ≤ℤ stock }
    requires later { pos 0 ≤ℤ later }
    requires fits { (stock_scale *ℤ stock +ℤ pos discount *ℤ later) ≤ℤ pos (2 ^ 120) }
    ensures { result ≡ stock_scale *ℤ stock +ℤ pos discount *ℤ later }
{
    stock_scale * stock + i128::from(discount) * later
}

// What the units up to a position cost, from 0 on.
fn units_cost(unit: i128, at: i64) -> i128
    requires least { (pos 0 -ℤ pos (2 ^ 120)) ≤ℤ (unit *ℤ at) }
    requires most { (unit *ℤ at) ≤ℤ pos (2 ^ 120) }
    ensures { result ≡ unit *ℤ at }
{
    unit * i128::from(at)
}

// The cost of a position with the units up to there.
pub(crate) fn cost_with_units(stay: i128, unit: i128, at: i64) -> i128
    requires stay_least { pos 0 ≤ℤ stay }
    requires stay_most { stay ≤ℤ pos (2 ^ 120) }
    requires least { (pos 0 -ℤ pos (2 ^ 120)) ≤ℤ (unit *ℤ at) }
    requires most { (unit *ℤ at) ≤ℤ pos (2 ^ 120) }
    ensures { result ≡ stay +ℤ unit *ℤ at }
{
    stay + units_cost(unit, at)
}

// The value of an order from a position.
pub(crate) fn order_value(scales: &Scales, at: i64, cost: i128) -> i128
    requires setup_least { pos 0 ≤ℤ scales.now.setup }
    requires setup_most { scales.now.setup ≤ℤ pos (2 ^ 120) }
    requires least { (pos 0 -ℤ pos (2 ^ 120)) ≤ℤ (scales.now.unit *ℤ at) }
    requires most { (scales.now.unit *ℤ at) ≤ℤ pos (2 ^ 120) }
    requires cost_least { (pos 0 -ℤ pos (2 ^ 121)) ≤ℤ cost }
    requires cost_most { cost ≤ℤ pos (2 ^ 121) }
    ensures { result ≡ order_value scales.now.setup scales.now.unit at cost }
{
    cost + scales.setup - units_cost(scales.unit, at)
}

// Of staying at a position and the best order, the order where it costs less.
pub(crate) fn choose(scales: &Scales, stay: i128, at: i64, best: Option<(i64, i128)>) -> Found
    requires setup_least { pos 0 ≤ℤ scales.now.setup }
    requires setup_most { scales.now.setup ≤ℤ pos (2 ^ 120) }
    requires least { (pos 0 -ℤ pos (2 ^ 120)) ≤ℤ (scales.now.unit *ℤ at) }
    requires most { (scales.now.unit *ℤ at) ≤ℤ pos (2 ^ 120) }
    requires best_least { IfSome best (λ pair. (pos 0 -ℤ pos (2 ^ 121)) ≤ℤ pair.1) }
    requires best_most { IfSome best (λ pair. pair.1 ≤ℤ pos (2 ^ 121)) }
    ensures stay { result.stay ≡ stay }
    ensures to { result.to ≡ chosen_to scales.now.setup scales.now.unit stay at best }
    ensures value { result.value ≡ chosen_value scales.now.setup scales.now.unit stay at best }
{
    let staying = Found {
        stay,
        to: at,
        value: stay,
    };
    let Some((to, cost)) = best else {
        return staying;
    };
    let value = order_value(scales, at, cost);
    if value < stay {
        Found { stay, to, value }
    } else {
        staying
    }
}
