// The demands above 0 that have a weight, and sums over them.
ghost use Rattle.std.specs.Prelude.{◌≡◌, ℕ, suc, ◌+◌, ◌-◌, ◌*◌, ◌^◌, ◌<◌, ◌≤◌, ◌++◌, ◌∷◌, [], ◌==◌, if◌then◌else◌, length, slice_index, IfOk, OnOk, min};
ghost use Rattle.value_cert.specs.AverageValues.{moving};
ghost use Rattle.average_cost.specs.Moves.{moves_upto, move_value, move_at, keep_of};

use std::alloc::{AllocError, Global};

/// A demand of `back + 1` with its weight, times the sum of the weights of all demands above 0 to the power of `back`.
#[derive(Clone, Copy, Debug)]
pub(crate) struct Move {
    pub(crate) back: usize,
    pub(crate) factor: u128,
}

// Lists a demand if it has a weight.
fn push_move(
    moves: &mut Vec<Move>,
    back: usize,
    weight: u128,
    power: u128,
) -> Result<(), AllocError>
    requires { weight * power ≤ 2 ^ 126 }
    ensures { OnOk result (moves.new.items ≡ (if weight == 0 then moves.old.items else moves.old.items ++ move_at back (weight * power) ∷ [])) }
{
    if weight == 0 {
        return Ok(());
    }
    moves.push(Move {
        back,
        factor: weight * power,
    })?;
    Ok(())
}

// Lists the demands above 0 and below a count that have a weight, from the least up.
pub(crate) fn list_moves(
    alloc: Global,
    weights: &[u128],
    total: u128,
    count: usize,
) -> Result<Vec<Move>, AllocError>
    requires many { 1 ≤ count }
    requires law { 1 ≤ length weights.now }
    requires some { 1 ≤ total }
    requires fits { total ^ (count - 1) ≤ 2 ^ 126 }
    requires each { (d : ℕ) → slice_index weights.now (suc d) ≤ total }
    ensures { IfOk result (λ moves. moves.items ≡ moves_upto weights.now total (min (count - 1) (length weights.now - 1))) }
{
    let mut moves = Vec::new(alloc);
    let mut power = 1;
    for back in 0..(count - 1).min(weights.len() - 1) {
        push_move(&mut moves, back, weights[back + 1], power)?;
        power *= total;
    }
    Ok(moves)
}

// A total with a factor times an entry.
fn add_product(total: u128, factor: u128, entry: u128) -> u128
    requires { total + factor * entry ≤ 2 ^ 126 }
    ensures { result ≡ total + factor * entry }
{
    total + factor * entry
}

// A total with what a demand adds.
fn add_move(total: u128, step: &Move, entries: &[u128]) -> u128
    requires { total + move_value (slice_index entries.now) (length entries.now) step.now ≤ 2 ^ 126 }
    ensures { result ≡ total + move_value (slice_index entries.now) (length entries.now) step.now }
{
    let count = entries.len();
    if step.back < count {
        return add_product(total, step.factor, entries[count - 1 - step.back]);
    }
    total
}

// What the next place behind the listed entries comes to: a first number and what the demands carry below the floor, both
// times the power of the place, and each listed demand's factor times the entry that it leads to.
pub(crate) fn keep_line(
    moves: &[Move],
    first: u128,
    below: u128,
    power: u128,
    entries: &[u128],
) -> u128
    requires { keep_of moves.now first below power entries.now ≤ 2 ^ 126 }
    ensures { result ≡ keep_of moves.now first below power entries.now }
{
    let mut total = add_product(below * power, first, power);
    for step in moves {
        total = add_move(total, step, entries);
    }
    total
}
