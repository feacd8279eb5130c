// The demands above 0 that have a weight, and sums over them.
ghost use Rattle.std.specs.Prelude.{◌≡◌, ℕ, ◌+◌, ◌*◌, ◌^◌, ◌≤◌, length, slice_index, IfOk, OnOk};
ghost use Rattle.demand_law.specs.CountedSums.{counted};
ghost use Rattle.bracket_lemmas.specs.EntryFacts.{entry_after};
ghost use Rattle.bracket_terms.specs.Moves.{move_sum};

use std::alloc::{AllocError, Global};

/// A demand of `back + 1` with its weight.
#[derive(Clone, Copy, Debug)]
pub(crate) struct Move {
    pub(crate) back: usize,
    pub(crate) weight: u128,
}

// Lists a demand if it has a weight.
fn push_move(moves: &mut Vec<Move>, back: usize, weight: u128) -> Result<(), AllocError>
    ensures { OnOk result ((f : ℕ → ℕ) → move_sum moves.new.items f ≡ move_sum moves.old.items f + weight * f back) }
{
    if weight == 0 {
        return Ok(());
    }
    moves.push(Move { back, weight })?;
    Ok(())
}

/// Lists the demands above 0 that have a weight, from the least up. The weights are those from demand 1 up.
pub(crate) fn list_moves(alloc: Global, weights: &[u128]) -> Result<Vec<Move>, AllocError>
    ensures { IfOk result (λ moves. (f : ℕ → ℕ) → move_sum moves.items f ≡ counted weights.now f) }
{
    let mut moves = Vec::new(alloc);
    for back in 0..weights.len() {
        push_move(&mut moves, back, weights[back])?;
    }
    Ok(moves)
}

// The entry that a demand of `back + 1` leads to from the place behind the entries.
fn entry_after(entries: &[u128], below: u128, back: usize) -> u128
    ensures { result ≡ entry_after below (slice_index entries.now) (length entries.now) back }
{
    let count = entries.len();
    if back < count {
        return entries[count - 1 - back];
    }
    below
}

// A sum with one more entry times its weight.
fn add_weighed(sum: u128, weight: u128, entry: u128) -> u128
    requires { sum + weight * entry ≤ 2 ^ 122 }
    ensures { result ≡ sum + weight * entry }
{
    sum + weight * entry
}

/// The sum of the entries that the listed demands lead to from the place behind the entries, each times its weight.
pub(crate) fn weigh(moves: &[Move], entries: &[u128], below: u128) -> u128
    requires { move_sum moves.now (entry_after below (slice_index entries.now) (length entries.now)) ≤ 2 ^ 122 }
    ensures { result ≡ move_sum moves.now (entry_after below (slice_index entries.now) (length entries.now)) }
{
    let mut sum = 0u128;
    for step in moves {
        sum = add_weighed(sum, step.weight, entry_after(entries, below, step.back));
    }
    sum
}
