// The least upper bound, and its least entries. All entries are raised by one number, so that none is below 0.
ghost use Rattle.std.specs.Prelude.{◌≡◌, ◌-◌, ◌<◌, ◌≤◌, nat_lt, if◌then◌else◌, length, slice_index, IfOk, OnOk};
ghost use Rattle.std.specs.Int.{div_ceil};
ghost use Rattle.decision_model.specs.Average.{average_positions};
ghost use Rattle.value_cert.specs.BracketValues.{most_bound, most_over};
ghost use Rattle.bracket_lemmas.specs.BracketSolved.{over_entries, passes_over, least_upper};
ghost use Rattle.bracket_terms.specs.Known.{item_of};

use crate::search::between;
use bracket_terms::Terms;
use std::alloc::AllocError;

// The least entry of a place: the setup cost where it orders.
fn over_entry(orders: bool, gain: u128, loss: u128, moving: u128, below: u128) -> u128
    requires { 1 ≤ moving }
    ensures { result ≡ (if orders then below else div_ceil (gain - loss) moving) }
{
    if orders {
        return below;
    }
    gain.saturating_sub(loss).div_ceil(moving)
}

/// The least entries of the first places.
pub(crate) fn sweep_over(
    terms: &Terms,
    orders: usize,
    g: u128,
    count: usize,
    entries: &mut Vec<u128>,
) -> Result<(), AllocError>
    requires bound { g ≤ most_bound (item_of terms.now) }
    requires within { count ≤ average_positions (item_of terms.now) }
    ensures { let item = item_of terms.now in
        OnOk result (entries.new.items ≡ over_entries item (most_over item (average_positions item)) orders g count) }
{
    entries.clear();
    let moving = terms.sizes().moving;
    let loss = terms.loss_of(g);
    let below = terms.raised_setup();
    for k in 0..count {
        let gain = terms.over_gain(entries);
        entries.push(over_entry(k < orders, gain, loss, moving, below))?;
    }
    Ok(())
}

// The entry of a place.
fn entry_at(entries: &[u128], place: usize) -> u128
    requires { place < length entries.now }
    ensures { result ≡ slice_index entries.now place }
{
    entries[place]
}

/// Which places order, and up to which one.
#[derive(Clone, Copy, Debug)]
pub(crate) struct Pair {
    /// How many of the first places order.
    pub(crate) orders: usize,
    /// The place of the position that they order up to.
    pub(crate) high: usize,
}

// Whether some entries have an upper bound of g.
fn try_upper(
    terms: &Terms,
    pair: Pair,
    g: u128,
    entries: &mut Vec<u128>,
) -> Result<bool, AllocError>
    requires bound { g ≤ most_bound (item_of terms.now) }
    requires within { pair.high < average_positions (item_of terms.now) }
    ensures { let item = item_of terms.now in
        IfOk result (λ passes. passes ≡ passes_over item (most_over item (average_positions item)) pair.orders pair.high g) }
{
    sweep_over(terms, pair.orders, g, pair.high + 1, entries)?;
    Ok(entry_at(entries, pair.high) <= terms.sizes().raise)
}

// The next guess: some way up while none has passed, and then the middle.
fn next_guess(bottom: u128, good: u128, step: u128) -> u128 {
    if step == 0 {
        return bottom.midpoint(good);
    }
    bottom.saturating_add(step)
}

/// The least upper bound of a pair. Each turn tries a number from the least that isn't known to fail to the greatest below
/// one that passes; it begins with a guess.
pub(crate) fn find_upper(
    terms: &Terms,
    pair: Pair,
    first: u128,
    entries: &mut Vec<u128>,
) -> Result<u128, AllocError>
    requires within { pair.high < average_positions (item_of terms.now) }
    requires before { pair.orders ≤ pair.high }
    ensures exact { let item = item_of terms.now in
        IfOk result (λ g. g ≡ least_upper item (most_over item (average_positions item)) pair.orders pair.high) }
    ensures small { IfOk result (λ g. g ≤ most_bound (item_of terms.now)) }
{
    let mut bottom = 0u128;
    let mut good = terms.sizes().most;
    let mut step = 1u128;
    let mut guess = first;
    'turns: while bottom < good {
        let middle = between(bottom, good, guess);
        if try_upper(terms, pair, middle, entries)? {
            good = middle;
            step = 0;
        } else {
            bottom = middle + 1;
            step = step.saturating_add(step);
        }
        guess = next_guess(bottom, good, step);
    }
    Ok(good)
}
