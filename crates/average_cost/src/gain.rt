// The turns that find the average cost.
ghost use Rattle.std.specs.Prelude.{◌≡◌, ◌⊎◌, ℕ, ◌+◌, ◌*◌, ◌^◌, ◌<◌, ◌≤◌, nat_le, if◌then◌else◌, length, slice_index, Some, None, OnOk, IfOk, MatchOption};
ghost use Rattle.decision_model.specs.Average.{IsValidAverage, average_positions};
ghost use Rattle.value_cert.specs.AverageValues.{average_cost_of};
ghost use Rattle.average_lemmas.specs.AverageCost.{reduced};
ghost use Rattle.average_lemmas.specs.CostLines.{keep_constant, keep_slope, limit_constant, IsTurn};
ghost use Rattle.average_cost.specs.Grids.{AreTerms, IsPlace};
ghost use Rattle.average_cost.specs.Turns.{ratio_of, AreLines};

use crate::grid::{Place, Terms, first_place, go_up, stock_at};
use crate::moves::keep_line;
use decision_model::Average;
use fraction128::gcd;
use std::alloc::{AllocError, Global};

/// An average cost, as a fraction.
#[derive(Clone, Copy, Debug)]
pub(crate) struct Gain {
    pub(crate) num: u128,
    pub(crate) den: u128,
}

/// The lines of the first positions at some average cost, and a lesser one where a value is below 0.
#[derive(Drop)]
pub(crate) struct Lines {
    pub(crate) constants: Vec<u128>,
    pub(crate) slopes: Vec<u128>,
    pub(crate) next: Option<Gain>,
}

// The constant of the line of keeping a place.
fn constant_line(item: &Average, terms: &Terms, place: &Place, k: usize, constants: &[u128]) -> u128
    requires valid { IsValidAverage item.now }
    requires terms { AreTerms item.now terms.now }
    requires within { k < average_positions item.now }
    requires place { IsPlace item.now place.now k }
    requires many { length constants.now ≡ k }
    requires fits { keep_constant item.now (slice_index constants.now) k ≤ 2 ^ 119 }
    ensures { result ≡ keep_constant item.now (slice_index constants.now) k }
{
    let stock = stock_at(item, place, k);
    let below = place.rest * terms.below;
    keep_line(&terms.moves, stock, below, place.power, constants)
}

// Its slope.
fn slope_line(item: &Average, terms: &Terms, place: &Place, k: usize, slopes: &[u128]) -> u128
    requires terms { AreTerms item.now terms.now }
    requires within { k < average_positions item.now }
    requires place { IsPlace item.now place.now k }
    requires many { length slopes.now ≡ k }
    requires fits { keep_slope item.now (slice_index slopes.now) k ≤ 2 ^ 119 }
    ensures { result ≡ keep_slope item.now (slice_index slopes.now) k }
{
    let _instance = item;
    keep_line(&terms.moves, terms.unit, 0, place.power, slopes)
}

// What ordering costs at a place.
pub(crate) fn limit_line(item: &Average, terms: &Terms, place: &Place, k: usize) -> u128
    requires valid { IsValidAverage item.now }
    requires terms { AreTerms item.now terms.now }
    requires within { k < average_positions item.now }
    requires place { IsPlace item.now place.now k }
    ensures { result ≡ limit_constant item.now k }
{
    let _instance = item;
    terms.below * place.power * terms.moving
}

// Of the next average cost so far and that of one more place, if its value is below 0, the lesser.
fn lesser(next: Option<Gain>, g: Gain, line: Gain) -> Option<Gain>
    requires at_g { (line.num * g.den ≤ 2 ^ 120) × (line.den * g.num ≤ 2 ^ 120) }
    requires at_next { MatchOption next (Unit {0}) (λ best. (best.num * line.den ≤ 2 ^ 120) × (line.num * best.den ≤ 2 ^ 120)) }
    ensures one { MatchOption result (next ≡ None) (λ best. (next ≡ Some best) ⊎ ((best ≡ line) × (line.num * g.den < line.den * g.num))) }
    ensures none { result ≡ None → line.den * g.num ≤ line.num * g.den }
{
    if line.num * g.den >= line.den * g.num {
        return next;
    }
    match next {
        Some(best) => {
            if best.num * line.den <= line.num * best.den {
                return Some(best);
            }
            Some(line)
        }
        None => Some(line),
    }
}

// The line of a place: what ordering costs where that is at most what keeping it is worth, else the latter.
fn chosen(g: Gain, limit: u128, line: Gain) -> Gain
    requires at_g { (line.num * g.den ≤ 2 ^ 119) × (line.den * g.num ≤ 2 ^ 119) }
    requires at_limit { limit * g.den ≤ 2 ^ 119 }
    ensures num { result.num ≡ (if nat_le (limit * g.den + line.den * g.num) (line.num * g.den) then limit else line.num) }
    ensures den { result.den ≡ (if nat_le (limit * g.den + line.den * g.num) (line.num * g.den) then 0 else line.den) }
{
    if limit * g.den + line.den * g.num <= line.num * g.den {
        return Gain { num: limit, den: 0 };
    }
    line
}

// Adds the line of the next place.
fn add_line(
    item: &Average,
    terms: &Terms,
    place: &Place,
    g: Gain,
    k: usize,
    lines: &mut Lines,
) -> Result<(), AllocError>
    requires valid { IsValidAverage item.now }
    requires terms { AreTerms item.now terms.now }
    requires within { k < average_positions item.now }
    requires place { IsPlace item.now place.now k }
    requires turn { IsTurn item.now (average_positions item.now) (ratio_of g) }
    requires lines { AreLines item.now (ratio_of g) k lines.old }
    ensures { OnOk result (AreLines item.now (ratio_of g) (k + 1) lines.new) }
{
    let line = Gain {
        num: constant_line(item, terms, place, k, &lines.constants),
        den: slope_line(item, terms, place, k, &lines.slopes),
    };
    let limit = limit_line(item, terms, place, k);
    let kept = chosen(g, limit, line);
    lines.next = lesser(lines.next, g, line);
    lines.constants.push(kept.num)?;
    lines.slopes.push(kept.den)?;
    Ok(())
}

// The lines of all places at an average cost, and a lesser one where a value is below 0.
fn run_turn(item: &Average, terms: &Terms, g: Gain, lines: &mut Lines) -> Result<(), AllocError>
    requires valid { IsValidAverage item.now }
    requires terms { AreTerms item.now terms.now }
    requires turn { IsTurn item.now (average_positions item.now) (ratio_of g) }
    ensures { OnOk result (AreLines item.now (ratio_of g) (average_positions item.now) lines.new) }
{
    lines.constants.clear();
    lines.slopes.clear();
    lines.next = None;
    let mut place = first_place(item, terms);
    for k in 0..terms.count {
        go_up(item, terms, &mut place, k);
        add_line(item, terms, &place, g, k, lines)?;
    }
    Ok(())
}

// An average cost in lowest terms.
fn reduced(g: Gain) -> Gain
    requires { 1 ≤ g.den }
    ensures { ratio_of result ≡ reduced (ratio_of g) }
{
    let common = gcd(g.num, g.den);
    Gain {
        num: g.num / common,
        den: g.den / common,
    }
}

// The average cost at which the value of the floor is 0.
fn first_gain(item: &Average, terms: &Terms) -> Gain
    requires valid { IsValidAverage item.now }
    requires terms { AreTerms item.now terms.now }
    ensures { IsTurn item.now (average_positions item.now) (ratio_of result) }
{
    let none: [u128; 0] = [];
    let place = first_place(item, terms);
    Gain {
        num: constant_line(item, terms, &place, 0, &none),
        den: slope_line(item, terms, &place, 0, &none),
    }
}

/// Finds the average cost of an instance: at each turn it falls to where the line of a position whose value is below 0
/// meets 0, until none is below 0.
pub(crate) fn find_gain(
    item: &Average,
    terms: &Terms,
    lines: &mut Lines,
) -> Result<Gain, AllocError>
    requires valid { IsValidAverage item.now }
    requires terms { AreTerms item.now terms.now }
    ensures { IfOk result (λ g. ratio_of g ≡ average_cost_of item.now) }
{
    let mut g = reduced(first_gain(item, terms));
    'turns: loop {
        run_turn(item, terms, g, lines)?;
        match lines.next {
            Some(next) => g = reduced(next),
            None => return Ok(g),
        }
    }
}
