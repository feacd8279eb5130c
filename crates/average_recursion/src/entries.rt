// What keeping a position is worth by the entries below it.
ghost use Rattle.std.specs.Prelude.{◌≡◌, ℕ, ◌+◌, ◌*◌, ◌^◌, ◌<◌, ◌≤◌, ◌==◌, true, nat_le, length, slice_index};
ghost use Rattle.decision_model.specs.Average.{IsValidAverage, average_positions};
ghost use Rattle.value_cert.specs.AverageValues.{gain};
ghost use Rattle.average_recursion.specs.Laws.{HoldsLaws};
ghost use Rattle.average_recursion.specs.Rows.{IsGain, IsPlace, ratio_of};
ghost use Rattle.average_recursion.specs.Entries.{entry_at, after, listed_count, AreSmallEntries, AreEntries, entry_most};

use crate::gain::Gain;
use crate::laws::{HeldLaws, moving_weights};
use crate::place::{Place, stock_at};
use decision_model::Average;

// The entry that a demand of `back + 1` leads to, from the position behind the cells.
fn after(cells: &[i128], below: u128, back: usize) -> u128
    ensures { result ≡ after (entry_at cells.now) below (length cells.now) back }
{
    let count = cells.len();
    if back < count {
        return cells[count - 1 - back].unsigned_abs();
    }
    below
}

// A sum with one more value times its weight.
fn add_weighed(sum: u128, weight: u128, value: u128) -> u128
    requires { sum + weight * value ≤ 2 ^ 120 }
    ensures { result ≡ sum + weight * value }
{
    sum + weight * value
}

// The sum over the listed demands of each one's weight times the entry that it leads to.
fn weigh(weights: &[u128], listed: &[u128], cells: &[i128], below: u128) -> u128
    requires within { (i : ℕ) → i < length listed.now → slice_index listed.now i < length weights.now }
    requires few { length weights.now ≤ 2 ^ 60 }
    requires fits { listed_count weights.now listed.now (after (entry_at cells.now) below (length cells.now)) ≤ 2 ^ 120 }
    ensures { result ≡ listed_count weights.now listed.now (after (entry_at cells.now) below (length cells.now)) }
{
    let mut sum = 0u128;
    for back in listed {
        let back = *back as usize;
        sum = add_weighed(sum, weights[back], after(cells, below, back));
    }
    sum
}

// What keeping the position behind the cells is worth, the average cost aside, over the denominator of the last position.
pub(crate) fn gain_at(
    average: &Average,
    laws: &HeldLaws,
    sums: &[u128],
    rate: &Gain,
    place: &Place,
    cells: &[i128],
) -> u128
    requires valid { IsValidAverage average.now }
    requires laws { HoldsLaws average.now laws.now sums.now }
    requires rate { IsGain average.now rate.now }
    requires place { IsPlace average.now place.now }
    requires within { place.now.count < average_positions average.now }
    requires cells { length cells.now ≡ place.now.count }
    requires small { AreSmallEntries average.now (ratio_of rate.now) place.now.count (entry_at cells.now) }
    ensures exact { (a : ℕ → ℕ) → AreEntries average.now place.now.count (entry_at cells.now) a →
        result ≡ gain average.now (ratio_of rate.now) a place.now.count * place.now.power }
    ensures small { result ≤ entry_most average.now (ratio_of rate.now) place.now.count }
{
    let listed = &sums[laws.half..laws.half + laws.listed];
    let later = weigh(moving_weights(&average.law), listed, cells, rate.below);
    add_weighed(later, rate.stock, stock_at(average, place))
}

// Whether an entry is at most what is left of a gain after a loss. Both are taken `power` times.
pub(crate) fn is_at_most(entry: u128, gain: u128, loss: u128, power: u128) -> bool
    requires { 1 ≤ power }
    ensures { (x y : ℕ) → gain ≡ x * power → loss ≡ y * power → result ≡ nat_le (entry + y) x }
{
    if gain < loss {
        return false;
    }
    entry <= (gain - loss) / power
}

// Whether an entry is what is left of a gain after a loss. Both are taken `power` times.
pub(crate) fn is_worth(entry: u128, gain: u128, loss: u128, power: u128) -> bool
    requires { 1 ≤ power }
    ensures small { result ≡ true → entry * power ≤ gain }
    ensures exact { (x y : ℕ) → gain ≡ x * power → loss ≡ y * power → result ≡ (entry + y == x) }
{
    if gain < loss {
        return false;
    }
    entry == (gain - loss) / power
}
