// The values of an echelon.
ghost use Rattle.std.specs.Prelude.{◌≡◌, ℕ, ◌+◌, ◌*◌, ◌^◌, ◌<◌, ◌≤◌, min, pos, ◌+ℤ◌, ◌-ℤ◌, ◌*ℤ◌, length, unsigned_abs};
ghost use Rattle.serial_recursion.specs.Rows.{HasValueRoom, charge_of, place_charge, place_line, place_value, value_at};

use crate::frame::Frame;
use crate::numbers::{add, line_at, position_at, subtract, times};
use crate::rates::Rates;
use crate::rows::clear;
use decision_model::Walk;

// What an echelon is charged at a place: the cost of an order of the echelon before up to there, as far as its level,
// less that of an order to its level.
fn charge(costs: &[i128], level: usize, place: usize) -> i128
    requires place { place < length costs.now }
    requires level { level < length costs.now }
    requires kept { unsigned_abs (value_at costs.now (min place level)) ≤ 2 ^ 121 }
    requires free { unsigned_abs (value_at costs.now level) ≤ 2 ^ 121 }
    ensures { result ≡ place_charge costs.now level place }
{
    subtract(costs[place.min(level)], costs[level])
}

// Puts what an echelon is charged at each place into a row, from the costs and the level of the echelon before. The first
// one is charged nothing.
pub(crate) fn charge_row(
    echelon: usize,
    costs: &[i128],
    level: usize,
    charges: &mut [i128],
    count: usize,
)
    requires costs { count ≤ length costs.now }
    requires charges { count ≤ length charges.old }
    requires level { 1 ≤ echelon → level < count }
    requires small { 1 ≤ echelon → (k : ℕ) → k < count → unsigned_abs (value_at costs.now k) ≤ 2 ^ 121 }
    ensures same { length charges.new ≡ length charges.old }
    ensures charges { (k : ℕ) → k < count → value_at charges.new k ≡ charge_of echelon costs.now level k }
{
    if echelon == 0 {
        clear(charges, count);
        return;
    }
    for place in 0..count {
        charges[place] = charge(costs, level, place);
    }
}

// So many times the sum of the weights.
fn weights_upto(total: u128, place: usize) -> i128
    requires total { total ≤ 2 ^ 30 }
    requires place { place ≤ 2 ^ 28 }
    ensures exact { result ≡ pos (total * place) }
    ensures small { unsigned_abs result ≤ 2 ^ 58 }
{
    (total * place as u128) as i128
}

// A rate times a sum over all demands.
fn rated(rate: u64, sum: i128) -> i128
    requires rate { rate ≤ 2 ^ 30 }
    requires sum { unsigned_abs sum ≤ 2 ^ 64 }
    ensures exact { result ≡ pos rate *ℤ sum }
    ensures small { unsigned_abs result ≤ 2 ^ 94 }
{
    i128::from(rate) * sum
}

// What an echelon's stock costs and what lacks, over all demands: `base` is what lacks at place 0 and `lacks` at this one.
fn stock_sum(rates: &Rates, total: u128, base: i128, lacks: i128, place: usize) -> i128
    requires holding { rates.now.holding ≤ 2 ^ 30 }
    requires lacking { rates.now.lacking ≤ 2 ^ 30 }
    requires total { total ≤ 2 ^ 30 }
    requires place { place ≤ 2 ^ 28 }
    requires base { unsigned_abs base ≤ 2 ^ 62 }
    requires lacks { unsigned_abs lacks ≤ 2 ^ 62 }
    ensures { result ≡ pos rates.now.holding *ℤ (pos (total * place) -ℤ base) +ℤ pos rates.now.lacking *ℤ lacks }
{
    let stock = rated(rates.holding, subtract(weights_upto(total, place), base));
    add(stock, rated(rates.lacking, lacks))
}

// The part of a value that no order changes.
fn own_value(frame: &Frame, rates: &Rates, base: i128, lacks: i128, place: usize) -> i128
    requires low { unsigned_abs frame.now.low ≤ 2 ^ 30 }
    requires place { place ≤ 2 ^ 28 }
    requires holding { rates.now.holding ≤ 2 ^ 30 }
    requires lacking { rates.now.lacking ≤ 2 ^ 30 }
    requires total { frame.now.total ≤ 2 ^ 30 }
    requires base { unsigned_abs base ≤ 2 ^ 62 }
    requires lacks { unsigned_abs lacks ≤ 2 ^ 62 }
    requires own_scale { frame.now.own_scale ≤ 2 ^ 120 }
    requires own { frame.now.own_scale * unsigned_abs (pos rates.now.holding *ℤ (pos (frame.now.total * place) -ℤ base) +ℤ pos rates.now.lacking *ℤ lacks) ≤ 2 ^ 120 }
    requires rate { frame.now.scale * rates.now.unit ≤ 2 ^ 120 }
    requires line { frame.now.scale * rates.now.unit * unsigned_abs (frame.now.low +ℤ pos place) ≤ 2 ^ 120 }
    ensures exact { result ≡ pos frame.now.own_scale *ℤ (pos rates.now.holding *ℤ (pos (frame.now.total * place) -ℤ base) +ℤ pos rates.now.lacking *ℤ lacks) -ℤ place_line frame.now rates.now.unit place }
    ensures small { unsigned_abs result ≤ 2 ^ 121 }
{
    let stock = stock_sum(rates, frame.total, base, lacks, place);
    let own = times(frame.own_scale, stock);
    let line = line_at(frame.scale, rates.unit, position_at(frame.low, place));
    subtract(own, line)
}

// The parts of a value together.
fn value_of(own: i128, order: i128, charge: i128) -> i128
    requires own { unsigned_abs own ≤ 2 ^ 122 }
    requires order { unsigned_abs order ≤ 2 ^ 122 }
    requires charge { unsigned_abs charge ≤ 2 ^ 122 }
    ensures { result ≡ own +ℤ order +ℤ charge }
{
    add(add(own, order), charge)
}

// Puts the values of an echelon into a row that holds what it is charged, from the costs of its orders and its level.
pub(crate) fn value_row(
    frame: &Frame,
    rates: &Rates,
    weights: &[u128],
    costs: &[i128],
    level: usize,
    charges: &mut [i128],
)
    requires room { HasValueRoom frame.now rates.now weights.now }
    requires costs { frame.now.count ≤ length costs.now }
    requires charges { frame.now.count ≤ length charges.old }
    requires level { level < frame.now.count }
    requires cost_sizes { (k : ℕ) → k < frame.now.count → unsigned_abs (value_at costs.now k) ≤ 2 ^ 121 }
    requires charge_sizes { (k : ℕ) → k < frame.now.count → unsigned_abs (value_at charges.old k) ≤ 2 ^ 122 }
    ensures same { length charges.new ≡ length charges.old }
    ensures values { (k : ℕ) → k < frame.now.count → value_at charges.new k ≡ place_value frame.now rates.now weights.now costs.now level (value_at charges.old k) k }
{
    let mut walk = Walk::new(weights, 0, 1, frame.low);
    let base = walk.value();
    for place in 0..frame.count {
        let own = own_value(frame, rates, base, walk.value(), place);
        charges[place] = value_of(own, costs[place.max(level)], charges[place]);
        walk.up(weights);
    }
}
