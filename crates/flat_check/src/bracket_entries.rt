// The rules of a bracket's numbers, one by one.
ghost use Rattle.std.specs.Prelude.{◌≡◌, ℕ, ℤ, List, ◌+◌, ◌*◌, ◌^◌, ◌<◌, ◌≤◌, true, nat_le, sum, length, slice_index, pos, ◌+ℤ◌, unsigned_abs};
ghost use Rattle.bracket_lemmas.specs.BracketSolved.{over_gain};
ghost use Rattle.bracket_lemmas.specs.CheckRows.{AreRaised};
ghost use Rattle.bracket_terms.specs.Known.{item_of};
ghost use Rattle.decision_model.specs.Average.{average_positions};
ghost use Rattle.value_cert.specs.AverageRules.{is_pair};
ghost use Rattle.value_cert.specs.AverageValues.{moving};
ghost use Rattle.value_cert.specs.BracketRules.{is_bound, is_under_entry, is_over_entry};
ghost use Rattle.value_cert.specs.BracketValues.{setup_parts, most_bound, most_over};
ghost use Rattle.value_cert.specs.Numbers.{is_number};

use bracket_terms::{Terms, add_product};
use decision_model::Average;

/// A position with its entries, as a line has them.
#[derive(Clone, Copy, Debug)]
pub(crate) struct CellRow {
    pub(crate) at: i128,
    pub(crate) under: i128,
    pub(crate) over: i128,
}

/// Whether a bound is in range.
pub(crate) fn is_bound(terms: &Terms, number: i128) -> bool
    ensures { result ≡ is_bound (item_of terms.now) number }
{
    number >= 0 && number.unsigned_abs() <= terms.sizes().most
}

/// Whether a pair is in order on the grid; its lower position may be one below the floor.
pub(crate) fn is_pair(average: &Average, low: i128, high: i128) -> bool
    ensures { result ≡ is_pair average.now low high }
{
    if low < i128::from(average.floor) - 1 {
        return false;
    }
    if low >= high {
        return false;
    }
    high <= i128::from(average.cap)
}

/// Whether the lower entry of the place behind some is from 0 to the setup cost, and at most what keeping its place is worth.
pub(crate) fn is_under_entry(terms: &Terms, lower: u128, under: &[u128], row: &CellRow) -> bool
    requires bound { lower ≤ most_bound (item_of terms.now) }
    requires within { length under.now < average_positions (item_of terms.now) }
    requires small { (j : ℕ) → j < length under.now → slice_index under.now j ≤ setup_parts (item_of terms.now) }
    ensures rule { result ≡ is_under_entry (item_of terms.now) lower under.now row.now.under }
    ensures small { result ≡ true → unsigned_abs row.now.under ≤ setup_parts (item_of terms.now) }
{
    let sizes = terms.sizes();
    if row.under < 0 {
        return false;
    }
    let entry = row.under.unsigned_abs();
    if entry > sizes.setup {
        return false;
    }
    add_product(sizes.moving, entry, terms.loss_of(lower)) <= terms.under_gain(under)
}

/// An upper entry, raised.
pub(crate) fn raised(row: &CellRow, raise: u128) -> u128
    requires raise { raise ≤ 2 ^ 119 }
    requires entry { unsigned_abs row.now.over ≤ raise }
    ensures exact { pos result ≡ row.now.over +ℤ pos raise }
    ensures small { result ≤ 2 * raise }
{
    let size = row.over.unsigned_abs();
    if row.over < 0 {
        return raise - size;
    }
    raise + size
}

// Whether an upper entry of the place behind some, all raised, is at least what keeping its place is worth.
fn is_kept(terms: &Terms, upper: u128, over: &[u128], entry: u128) -> bool
    requires bound { upper ≤ most_bound (item_of terms.now) }
    requires within { length over.now < average_positions (item_of terms.now) }
    requires small { (j : ℕ) → j < length over.now →
        slice_index over.now j ≤ 2 * most_over (item_of terms.now) (average_positions (item_of terms.now)) }
    requires entry { entry ≤ 2 * most_over (item_of terms.now) (average_positions (item_of terms.now)) }
    ensures { let item = item_of terms.now in
        result ≡ nat_le (over_gain item (most_over item (average_positions item)) (slice_index over.now) (length over.now))
        (sum (moving item.law) * entry + sum item.law * upper) }
{
    terms.over_gain(over) <= add_product(terms.sizes().moving, entry, terms.loss_of(upper))
}

// Whether the upper entry is the setup cost.
fn is_setup(terms: &Terms, row: &CellRow) -> bool
    ensures { result ≡ is_number (pos (setup_parts (item_of terms.now))) row.now.over }
{
    row.over >= 0 && row.over.unsigned_abs() == terms.sizes().setup
}

/// Whether the upper entry of the place behind some is small, the setup cost up to low, and above it at least what keeping
/// its place is worth. The entries so far are raised.
pub(crate) fn is_over_entry(
    terms: &Terms,
    upper: u128,
    low: i128,
    over: &[u128],
    row: &CellRow,
) -> bool
    requires bound { upper ≤ most_bound (item_of terms.now) }
    requires within { length over.now < average_positions (item_of terms.now) }
    requires small { (j : ℕ) → j < length over.now →
        slice_index over.now j ≤ 2 * most_over (item_of terms.now) (average_positions (item_of terms.now)) }
    ensures rule { (first : List ℤ) → AreRaised (most_over (item_of terms.now) (average_positions (item_of terms.now))) over.now first →
        result ≡ is_over_entry (item_of terms.now) upper low first row.now.at row.now.over }
    ensures small { result ≡ true →
        unsigned_abs row.now.over ≤ most_over (item_of terms.now) (average_positions (item_of terms.now)) }
{
    let raise = terms.sizes().raise;
    if row.over.unsigned_abs() > raise {
        return false;
    }
    if row.at <= low {
        return is_setup(terms, row);
    }
    is_kept(terms, upper, over, raised(row, raise))
}
