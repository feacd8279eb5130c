// A guess at the greatest lower bound. Nothing rests on it: a search begins with it, and finds the bound from any number.
use crate::grid::Costs;
use crate::moves::Move;
use crate::sizes::Sizes;
use std::alloc::{AllocError, Global};

/// No more turns are made; most guesses take about five.
const MOST_TURNS: u32 = 24;

/// In how many parts of one the rates count.
const RATE_PARTS: i128 = 1_048_576;

/// What keeping a place is worth, which may be below 0, and by how much that falls where the bound rises by one, in parts.
#[derive(Clone, Copy, Debug)]
struct Tangent {
    worth: i128,
    rate: i128,
}

// A number of 128 bits with a sign; 0 in place of one that is too great.
fn signed(number: u128) -> i128 {
    i128::try_from(number).unwrap_or(0)
}

// A quotient; 0 where there is none.
fn quotient(number: i128, divisor: i128) -> i128 {
    number.checked_div(divisor).unwrap_or(0)
}

// The tangent that a demand of `back + 1` leads to from the place behind these.
fn tangent_after(tangents: &[Tangent], below: Tangent, back: usize) -> Tangent {
    let count = tangents.len();
    if back < count {
        return tangents[count - 1 - back];
    }
    below
}

// A sum with one more tangent times its weight.
fn add_weighed(sum: Tangent, weight: i128, one: Tangent) -> Tangent {
    Tangent {
        worth: sum.worth.wrapping_add(weight.wrapping_mul(one.worth)),
        rate: sum.rate.wrapping_add(weight.wrapping_mul(one.rate)),
    }
}

// The sum of the tangents that the listed demands lead to, each times its weight.
fn weigh_tangents(moves: &[Move], tangents: &[Tangent], below: Tangent) -> Tangent {
    let mut sum = Tangent { worth: 0, rate: 0 };
    for step in moves {
        let one = tangent_after(tangents, below, step.back);
        sum = add_weighed(sum, signed(step.weight), one);
    }
    sum
}

// What keeping a place is worth with a bound, by its cost and what follows.
fn kept(sizes: &Sizes, low: u128, bound: i128, after: Tangent) -> Tangent {
    let total = signed(sizes.total);
    let moving = signed(sizes.moving);
    let gain = total.wrapping_mul(signed(low).wrapping_sub(bound));
    Tangent {
        worth: quotient(gain.wrapping_add(after.worth), moving),
        rate: quotient(
            total.wrapping_mul(RATE_PARTS).wrapping_add(after.rate),
            moving,
        ),
    }
}

// The lesser worth of two.
fn lesser(least: Tangent, other: Tangent) -> Tangent {
    if other.worth < least.worth {
        return other;
    }
    least
}

// One sweep with a bound that goes on below 0: the tangent of the place where keeping is worth least.
fn least_tangent(
    moves: &[Move],
    costs: &[u128],
    sizes: &Sizes,
    bound: i128,
    tangents: &mut Vec<Tangent>,
) -> Result<Tangent, AllocError> {
    tangents.clear();
    let below = Tangent {
        worth: signed(sizes.setup),
        rate: 0,
    };
    let mut least = below;
    for low in costs {
        let after = weigh_tangents(moves, tangents, below);
        let here = kept(sizes, *low, bound, after);
        least = lesser(least, here);
        tangents.push(lesser(below, here))?;
    }
    Ok(least)
}

// Where a tangent comes to 0.
fn next_bound(bound: i128, tangent: Tangent) -> i128 {
    let change = quotient(tangent.worth.wrapping_mul(RATE_PARTS), tangent.rate);
    bound.wrapping_add(change)
}

/// A number near the greatest lower bound: each turn goes on with the choices of the sweep before.
pub(crate) fn guess_lower(
    alloc: Global,
    moves: &[Move],
    costs: &Costs,
    sizes: &Sizes,
) -> Result<u128, AllocError> {
    let mut tangents = Vec::with_capacity(alloc, sizes.count)?;
    let mut bound = signed(sizes.most);
    for _turn in 0..MOST_TURNS {
        let tangent = least_tangent(moves, &costs.low, sizes, bound, &mut tangents)?;
        let next = next_bound(bound, tangent);
        if next == bound {
            break;
        }
        bound = next;
    }
    Ok(u128::try_from(bound).unwrap_or(0))
}
