// The costs of orders of an echelon.
ghost use Rattle.std.specs.Prelude.{◌≡◌, ℕ, ◌+◌, ◌-◌, ◌*◌, ◌^◌, ◌<◌, ◌≤◌, pos, ◌+ℤ◌, ◌*ℤ◌, length, sum, unsigned_abs};
ghost use Rattle.demand_law.specs.Law.{weighted};
ghost use Rattle.serial_recursion.specs.Rows.{HasRoom, place_cost, place_line, row_at, value_at};

use crate::frame::Frame;
use crate::numbers::{add, add_weighed, line_at, position_at, times};
use crate::rows::clear;

// Adds the values from a cell on, each times the weight of a demand, to the first cells of a row. A demand without
// weight adds nothing.
fn add_demand(weight: u128, values: &[i128], from: usize, sums: &mut [i128], count: usize)
    requires weight { weight ≤ 2 ^ 120 }
    requires values { from + count ≤ length values.now }
    requires sums { count ≤ length sums.old }
    requires small { (k : ℕ) → k < count → unsigned_abs (value_at sums.old k) ≤ 2 ^ 120 }
    requires products { (k : ℕ) → k < count → weight * unsigned_abs (row_at values.now from k) ≤ 2 ^ 120 }
    ensures same { length sums.new ≡ length sums.old }
    ensures sums { (k : ℕ) → k < count → value_at sums.new k ≡ value_at sums.old k +ℤ pos weight *ℤ row_at values.now from k }
{
    if weight == 0 {
        return;
    }
    for place in 0..count {
        sums[place] = add_weighed(sums[place], weight, values[from + place]);
    }
}

// The sums over all demands of each one's weight times the value that it leads to, which is as many cells below.
fn sum_demands(weights: &[u128], values: &[i128], top: usize, sums: &mut [i128], count: usize)
    requires total { sum weights.now ≤ 2 ^ 120 }
    requires demands { length weights.now ≤ top + 1 }
    requires values { top + count ≤ length values.now }
    requires sums { count ≤ length sums.old }
    requires small { (k d : ℕ) → k < count → d < length weights.now → sum weights.now * unsigned_abs (value_at values.now (top + k - d)) ≤ 2 ^ 120 }
    ensures same { length sums.new ≡ length sums.old }
    ensures sums { (k : ℕ) → k < count → value_at sums.new k ≡ weighted weights.now (λ d. value_at values.now (top + k - d)) }
{
    clear(sums, count);
    for (demand, weight) in weights.iter().enumerate() {
        add_demand(*weight, values, top - demand, sums, count);
    }
}

// The cost of an order up to a place, from the sum of the values after it.
fn order_cost(frame: &Frame, unit: u64, place: usize, later: i128) -> i128
    requires low { unsigned_abs frame.now.low ≤ 2 ^ 40 }
    requires few { place ≤ 2 ^ 40 }
    requires rate { frame.now.scale * unit ≤ 2 ^ 120 }
    requires line { frame.now.scale * unit * unsigned_abs (frame.now.low +ℤ pos place) ≤ 2 ^ 120 }
    requires later { frame.now.num * unsigned_abs later ≤ 2 ^ 120 }
    ensures { result ≡ place_line frame.now unit place +ℤ pos frame.now.num *ℤ later }
{
    let line = line_at(frame.scale, unit, position_at(frame.low, place));
    add(line, times(u128::from(frame.num), later))
}

// Puts the costs of orders up to each position of a grid into a row. The values of the next period's grid begin at a cell.
pub(crate) fn order_row(
    frame: &Frame,
    weights: &[u128],
    unit: u64,
    values: &[i128],
    start: usize,
    costs: &mut [i128],
)
    requires room { HasRoom frame.now weights.now unit (row_at values.now start) }
    requires values { start + frame.now.greatest + frame.now.count ≤ length values.now }
    requires costs { frame.now.count ≤ length costs.old }
    ensures same { length costs.new ≡ length costs.old }
    ensures costs { (k : ℕ) → k < frame.now.count → value_at costs.new k ≡ place_cost frame.now weights.now unit (row_at values.now start) k }
{
    sum_demands(weights, values, start + frame.greatest, costs, frame.count);
    for place in 0..frame.count {
        costs[place] = order_cost(frame, unit, place, costs[place]);
    }
}
