// The greatest lower bound, and its greatest entries.
ghost use Rattle.std.specs.Prelude.{◌≡◌, ℕ, ◌-◌, ◌/◌, ◌≤◌, ◌==◌, ◌||◌, not, nat_lt, if◌then◌else◌, min, true, length, slice_index, IfOk, OnOk};
ghost use Rattle.decision_model.specs.Average.{average_positions};
ghost use Rattle.value_cert.specs.AverageValues.{first_passing};
ghost use Rattle.value_cert.specs.BracketValues.{most_bound};
ghost use Rattle.bracket_lemmas.specs.BracketSolved.{under_entries, passes_under, greatest_lower, high_place};
ghost use Rattle.bracket_terms.specs.Known.{item_of};

use crate::search::{Way, between};
use bracket_terms::Terms;
use std::alloc::AllocError;

// What is left of a gain after a loss, as an entry.
fn worth_of(gain: u128, loss: u128, moving: u128) -> u128
    requires fits { loss ≤ gain }
    requires some { 1 ≤ moving }
    ensures { result ≡ (gain - loss) / moving }
{
    (gain - loss) / moving
}

// The greatest entry of a place.
fn entry_of(gain: u128, loss: u128, moving: u128, setup: u128) -> u128
    requires fits { loss ≤ gain }
    requires some { 1 ≤ moving }
    ensures { result ≡ min setup ((gain - loss) / moving) }
{
    setup.min(worth_of(gain, loss, moving))
}

// Whether some entries have a lower bound of g: it ends at the first place where none do.
fn try_lower(terms: &Terms, g: u128, entries: &mut Vec<u128>) -> Result<bool, AllocError>
    requires { g ≤ most_bound (item_of terms.now) }
    ensures { IfOk result (λ passes. passes ≡ passes_under (item_of terms.now) (average_positions (item_of terms.now)) g) }
{
    entries.clear();
    let sizes = terms.sizes();
    let loss = terms.loss_of(g);
    for k in 0..sizes.count {
        let gain = terms.under_gain(entries);
        if gain < loss {
            return Ok(false);
        }
        entries.push(entry_of(gain, loss, sizes.moving, sizes.setup))?;
    }
    Ok(true)
}

/// The greatest lower bound. Each turn tries a number above the greatest that is known to pass, up to the greatest that isn't
/// known to fail; it begins with a guess. One that is right takes two turns.
pub(crate) fn find_lower(
    terms: &Terms,
    first: u128,
    entries: &mut Vec<u128>,
) -> Result<u128, AllocError>
    ensures exact { IfOk result (λ g. g ≡ greatest_lower (item_of terms.now) (average_positions (item_of terms.now))) }
    ensures small { IfOk result (λ g. g ≤ most_bound (item_of terms.now)) }
    ensures passes { IfOk result (λ g. passes_under (item_of terms.now) (average_positions (item_of terms.now)) g ≡ true) }
{
    let mut good = 0u128;
    let mut top = terms.sizes().most;
    let mut guess = first;
    let mut way = Way::Start;
    'turns: while good < top {
        let middle = between(good, top, guess.saturating_sub(1)) + 1;
        let passes = try_lower(terms, middle, entries)?;
        if passes {
            good = middle;
        } else {
            top = middle - 1;
        }
        way = way.after(passes);
        guess = way.guess(good, top);
    }
    Ok(good)
}

// A place, and what keeping it is worth as an entry.
#[derive(Clone, Copy, Debug)]
pub(crate) struct Best {
    pub(crate) place: usize,
    pub(crate) worth: u128,
}

// The place where keeping is worth least so far, and of several the first.
fn better(best: Best, k: usize, worth: u128) -> Best
    ensures { result ≡ (if (k == 0) || nat_lt worth best.worth then record { place = k; worth = worth } else best) }
{
    if k == 0 || worth < best.worth {
        return Best { place: k, worth };
    }
    best
}

/// The greatest entries of a lower bound that passes, and the first place where keeping is worth least.
pub(crate) fn lower_table(
    terms: &Terms,
    g: u128,
    entries: &mut Vec<u128>,
) -> Result<usize, AllocError>
    requires bound { g ≤ most_bound (item_of terms.now) }
    requires passes { passes_under (item_of terms.now) (average_positions (item_of terms.now)) g ≡ true }
    ensures entries { OnOk result (entries.new.items ≡ under_entries (item_of terms.now) g (average_positions (item_of terms.now))) }
    ensures high { let item = item_of terms.now in
        IfOk result (λ high. high ≡ high_place item g (slice_index (under_entries item g (average_positions item))) (average_positions item)) }
{
    entries.clear();
    let sizes = terms.sizes();
    let loss = terms.loss_of(g);
    let mut best = Best { place: 0, worth: 0 };
    for k in 0..sizes.count {
        let gain = terms.under_gain(entries);
        let worth = worth_of(gain, loss, sizes.moving);
        best = better(best, k, worth);
        entries.push(worth.min(sizes.setup))?;
    }
    Ok(best.place)
}

/// How many of the first places have the setup cost, of those below a place.
pub(crate) fn count_orders(entries: &[u128], setup: u128, high: usize) -> usize
    requires { high ≤ length entries.now }
    ensures { result ≡ first_passing (λ j. not (slice_index entries.now j == setup)) 0 high }
{
    for k in 0..high {
        if entries[k] != setup {
            return k;
        }
    }
    high
}
