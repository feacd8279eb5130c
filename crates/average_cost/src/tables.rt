// The tables of an average cost, and its pair.
ghost use Rattle.std.specs.Prelude.{◌≡◌, ◌+◌, ◌-◌, ◌*◌, ◌^◌, ◌<◌, ◌≤◌, ◌==◌, ◌&&◌, not, if◌then◌else◌, min, length, slice_index, OnOk, IfOk, pos, ◌-ℤ◌};
ghost use Rattle.decision_model.specs.Average.{IsValidAverage, average_positions};
ghost use Rattle.value_cert.specs.AverageRules.{first_cheap, first_zero};
ghost use Rattle.value_cert.specs.AverageValues.{average_cost_of, gain, loss, limit, at_place, is_cheap, lower_entries, upper_entries};
ghost use Rattle.average_cost.specs.Grids.{AreTerms, IsPlace};
ghost use Rattle.average_cost.specs.Turns.{ratio_of};

use crate::gain::{Gain, limit_line};
use crate::grid::{Place, Terms, first_place, go_up, stock_at};
use crate::moves::keep_line;
use decision_model::Average;
use std::alloc::AllocError;

// What keeping the place behind the listed entries is worth, the average cost aside.
fn gain_at(
    item: &Average,
    terms: &Terms,
    place: &Place,
    g: Gain,
    k: usize,
    entries: &[u128],
) -> u128
    requires valid { IsValidAverage item.now }
    requires terms { AreTerms item.now terms.now }
    requires within { k < average_positions item.now }
    requires place { IsPlace item.now place.now k }
    requires cost { ratio_of g ≡ average_cost_of item.now }
    requires many { length entries.now ≡ k }
    requires fits { gain item.now (ratio_of g) (slice_index entries.now) k ≤ 2 ^ 119 }
    ensures { result ≡ gain item.now (ratio_of g) (slice_index entries.now) k }
{
    let stock = stock_at(item, place, k) * g.den;
    let below = place.rest * (terms.below * g.den);
    keep_line(&terms.moves, stock, below, place.power, entries)
}

// The average cost of a place.
fn loss_at(item: &Average, terms: &Terms, place: &Place, g: Gain, k: usize) -> u128
    requires valid { IsValidAverage item.now }
    requires terms { AreTerms item.now terms.now }
    requires within { k < average_positions item.now }
    requires place { IsPlace item.now place.now k }
    requires cost { ratio_of g ≡ average_cost_of item.now }
    ensures exact { result ≡ loss item.now (ratio_of g) k }
    ensures small { result ≤ 2 ^ 119 }
{
    let _instance = item;
    g.num * (terms.unit * place.power)
}

// What ordering costs at a place.
fn limit_at(item: &Average, terms: &Terms, place: &Place, g: Gain, k: usize) -> u128
    requires valid { IsValidAverage item.now }
    requires terms { AreTerms item.now terms.now }
    requires within { k < average_positions item.now }
    requires place { IsPlace item.now place.now k }
    requires cost { ratio_of g ≡ average_cost_of item.now }
    ensures { result ≡ limit item.now (ratio_of g) k }
{
    limit_line(item, terms, place, k) * g.den
}

// Whether a period costs at most the average cost.
fn is_cheap_at(item: &Average, terms: &Terms, place: &Place, g: Gain, k: usize) -> bool
    requires valid { IsValidAverage item.now }
    requires terms { AreTerms item.now terms.now }
    requires within { k < average_positions item.now }
    requires place { IsPlace item.now place.now k }
    requires cost { ratio_of g ≡ average_cost_of item.now }
    ensures { result ≡ is_cheap item.now (ratio_of g) k }
{
    stock_at(item, place, k) * g.den <= g.num * terms.unit
}

// The first place whose period costs at most the average cost.
pub(crate) fn first_cheap(item: &Average, terms: &Terms, g: Gain) -> usize
    requires valid { IsValidAverage item.now }
    requires terms { AreTerms item.now terms.now }
    requires cost { ratio_of g ≡ average_cost_of item.now }
    ensures { result ≡ first_cheap item.now (ratio_of g) }
{
    let mut place = first_place(item, terms);
    for k in 0..terms.count {
        go_up(item, terms, &mut place, k);
        if is_cheap_at(item, terms, &place, g, k) {
            return k;
        }
    }
    terms.count
}

// The first place that passes, of one more: places up to k without one are told by k.
fn first_so_far(first: usize, k: usize, passes: bool) -> usize
    requires { k < 2 ^ 60 }
    ensures { result ≡ (if (first == k) && not passes then k + 1 else first) }
{
    if first == k && !passes {
        return k + 1;
    }
    first
}

// The lower entries, and the first place whose keeping is worth 0.
pub(crate) fn lower_table(
    item: &Average,
    terms: &Terms,
    g: Gain,
    entries: &mut Vec<u128>,
) -> Result<usize, AllocError>
    requires valid { IsValidAverage item.now }
    requires terms { AreTerms item.now terms.now }
    requires cost { ratio_of g ≡ average_cost_of item.now }
    ensures entries { OnOk result (entries.new.items ≡ lower_entries item.now (ratio_of g) (average_positions item.now)) }
    ensures zero { IfOk result (λ zero. zero ≡ first_zero item.now (ratio_of g)) }
{
    entries.clear();
    let mut place = first_place(item, terms);
    let mut zero = 0;
    for k in 0..terms.count {
        go_up(item, terms, &mut place, k);
        let gain = gain_at(item, terms, &place, g, k, entries);
        let loss = loss_at(item, terms, &place, g, k);
        zero = first_so_far(zero, k, gain == loss);
        let limit = limit_at(item, terms, &place, g, k);
        entries.push((gain - loss).min(limit))?;
    }
    Ok(zero)
}

// The upper entry of a place.
fn upper_at(order: bool, gain: u128, loss: u128, limit: u128) -> u128
    requires { loss ≤ gain }
    ensures { result ≡ (if order then limit else gain - loss) }
{
    if order { limit } else { gain - loss }
}

// The upper entries of the policy that orders below the first cheap place.
pub(crate) fn upper_table(
    item: &Average,
    terms: &Terms,
    g: Gain,
    first: usize,
    entries: &mut Vec<u128>,
) -> Result<(), AllocError>
    requires valid { IsValidAverage item.now }
    requires terms { AreTerms item.now terms.now }
    requires cost { ratio_of g ≡ average_cost_of item.now }
    requires first { first ≡ first_cheap item.now (ratio_of g) }
    ensures { OnOk result (entries.new.items ≡ upper_entries item.now (ratio_of g) (at_place item.now (first_cheap item.now (ratio_of g)) -ℤ pos 1) (average_positions item.now)) }
{
    entries.clear();
    let mut place = first_place(item, terms);
    for k in 0..terms.count {
        go_up(item, terms, &mut place, k);
        let gain = gain_at(item, terms, &place, g, k, entries);
        let loss = loss_at(item, terms, &place, g, k);
        let limit = limit_at(item, terms, &place, g, k);
        entries.push(upper_at(k < first, gain, loss, limit))?;
    }
    Ok(())
}
