// The solver.
ghost use Rattle.std.specs.Prelude.{◌≡◌, ℕ, ◌<◌, ◌≤◌, ◌^◌, IfOk, OnOk, length, slice_index, unsigned_abs, pos, ◌-ℤ◌, map, None};
ghost use Rattle.std.specs.List.{range_with_len};
ghost use Rattle.decision_model.specs.Average.{average_positions};
ghost use Rattle.decision_model.specs.WideAverage.{IsWideAverage};
ghost use Rattle.value_cert.specs.AverageValues.{at_place};
ghost use Rattle.line_text.specs.Breaches.{ruled, lines_breach};
ghost use Rattle.value_cert.specs.Bracket.{bracket_lines, HasBracketText};
ghost use Rattle.value_cert.specs.BracketRules.{bracket_rules};
ghost use Rattle.value_cert.specs.FlatGrammar.{flat_grammar};
ghost use Rattle.value_cert.specs.declared.flat_line.FlatName.{FlatName};
ghost use Rattle.value_cert.specs.BracketValues.{most_over};
ghost use Rattle.bracket_lemmas.specs.BracketFacts.{IsSolvedBracket};
ghost use Rattle.bracket_lemmas.specs.BracketSolved.{under_entries, over_entries};
ghost use Rattle.bracket_lemmas.specs.SolvedCert.{cell_at, solved_lower, solved_high, solved_orders, solved_upper, solved_bracket};
ghost use Rattle.bracket_terms.specs.Known.{item_of};

use crate::lower::{count_orders, find_lower, lower_table};
use crate::upper::{Pair, find_upper, sweep_over};
use bracket_terms::Terms;
use decision_model::{Average, Items};
use fraction128::Memory;
use std::alloc::{AllocError, Global};
use value_cert::{BracketCell, BracketCert};

// The position of a place.
fn position_of(terms: &Terms, k: usize) -> i64
    requires { k ≤ 40000 }
    ensures at { result ≡ at_place (item_of terms.now) k }
    ensures near { unsigned_abs result ≤ 2000000 }
{
    terms.floor() + k as i64
}

// The position below one.
fn below(at: i64) -> i64
    requires { unsigned_abs at ≤ 2000000 }
    ensures at { result ≡ at -ℤ pos 1 }
    ensures near { unsigned_abs result ≤ 3000000 }
{
    at - 1
}

// An upper entry, lowered by what all are raised by.
fn lowered(entry: u128, raise: u128) -> i128
    requires entry { entry ≤ 2 ^ 122 }
    requires raise { raise ≤ 2 ^ 122 }
    ensures exact { result ≡ pos entry -ℤ pos raise }
    ensures small { unsigned_abs result ≤ 2 ^ 122 }
{
    entry as i128 - raise as i128
}

// The cell of a place.
fn cell_of(terms: &Terms, k: usize, under: u128, over: u128, raise: u128) -> BracketCell
    requires within { k ≤ 40000 }
    requires small { over ≤ 2 ^ 122 }
    requires raise { raise ≤ 2 ^ 122 }
    ensures { result ≡ record { at = at_place (item_of terms.now) k; under = under; over = pos over -ℤ pos raise } }
{
    BracketCell {
        at: position_of(terms, k),
        under,
        over: lowered(over, raise),
    }
}

// The cells of all places.
fn list_cells(
    alloc: Global,
    terms: &Terms,
    under: &[u128],
    over: &[u128],
) -> Result<Vec<BracketCell>, AllocError>
    requires under { length under.now ≡ average_positions (item_of terms.now) }
    requires over { length over.now ≡ average_positions (item_of terms.now) }
    requires small { (k : ℕ) → k < length over.now → slice_index over.now k ≤ 2 ^ 122 }
    ensures { let item = item_of terms.now in
        IfOk result (λ cells. cells.items ≡ map (cell_at item (slice_index under.now) (slice_index over.now)
        (most_over item (average_positions item))) (range_with_len 0 (average_positions item))) }
{
    let count = under.len();
    let raise = terms.sizes().raise;
    let mut cells = Vec::with_capacity(alloc, count)?;
    for k in 0..count {
        cells.push(cell_of(terms, k, under[k], over[k], raise))?;
    }
    Ok(cells)
}

// What the lower entries say.
#[derive(Clone, Copy, Debug)]
struct Front {
    // The lower bound.
    lower: u128,
    pair: Pair,
}

// The lower bound, which is sought from a guess on, its entries, and the pair.
fn find_front(terms: &Terms, guess: u128, under: &mut Vec<u128>) -> Result<Front, AllocError>
    ensures front { let item = item_of terms.now in
        IfOk result (λ front. front ≡ record { lower = solved_lower item; pair = record { orders = solved_orders item; high = solved_high item } }) }
    ensures under { let item = item_of terms.now in
        OnOk result (under.new.items ≡ under_entries item (solved_lower item) (average_positions item)) }
{
    let lower = find_lower(terms, guess, under)?;
    let high = lower_table(terms, lower, under)?;
    let orders = count_orders(under, terms.sizes().setup, high);
    Ok(Front {
        lower,
        pair: Pair { orders, high },
    })
}

// The upper bound, and its entries.
fn find_back(terms: &Terms, front: Front, over: &mut Vec<u128>) -> Result<u128, AllocError>
    requires { let item = item_of terms.now in
        front ≡ record { lower = solved_lower item; pair = record { orders = solved_orders item; high = solved_high item } } }
    ensures upper { IfOk result (λ upper. upper ≡ solved_upper (item_of terms.now)) }
    ensures over { let item = item_of terms.now in OnOk result (over.new.items ≡
        over_entries item (most_over item (average_positions item)) (solved_orders item) (solved_upper item) (average_positions item)) }
{
    let upper = find_upper(terms, front.pair, front.lower, over)?;
    sweep_over(terms, front.pair.orders, upper, terms.sizes().count, over)?;
    Ok(upper)
}

// The certificate of found numbers and entries.
fn make_cert(
    alloc: Global,
    terms: &Terms,
    front: Front,
    upper: u128,
    under: &[u128],
    over: &[u128],
) -> Result<BracketCert, AllocError>
    requires front { let item = item_of terms.now in
        front ≡ record { lower = solved_lower item; pair = record { orders = solved_orders item; high = solved_high item } } }
    requires upper { upper ≡ solved_upper (item_of terms.now) }
    requires under { let item = item_of terms.now in under.now ≡ under_entries item (solved_lower item) (average_positions item) }
    requires over { let item = item_of terms.now in over.now ≡
        over_entries item (most_over item (average_positions item)) (solved_orders item) (solved_upper item) (average_positions item) }
    ensures { IfOk result (λ c. c ≡ solved_bracket (item_of terms.now)) }
{
    let cells = list_cells(alloc, terms, under, over)?;
    Ok(BracketCert {
        lower: front.lower,
        upper,
        low: below(position_of(terms, front.pair.orders)),
        high: position_of(terms, front.pair.high),
        cells: Items::new(cells),
    })
}

fn certificate(alloc: Global, item: &Average) -> Result<BracketCert, AllocError>
    requires { IsWideAverage item.now }
    ensures { IfOk result (λ c. c ≡ solved_bracket item.now) }
{
    let terms = Terms::new(alloc, item)?;
    let guess = terms.guess_lower(alloc)?;
    let count = terms.sizes().count;
    let mut under = Vec::with_capacity(alloc, count)?;
    let mut over = Vec::with_capacity(alloc, count)?;
    let front = find_front(&terms, guess, &mut under)?;
    let upper = find_back(&terms, front, &mut over)?;
    make_cert(alloc, &terms, front, upper, &under, &over)
}

/// A bracket of the average cost over every number of periods: the greatest lower bound with the pair of its entries, and
/// the least upper bound of that pair. `Memory` is its only refusal.
pub fn solve_bracket(alloc: Global, item: &Average) -> Result<BracketCert, Memory>
    requires { IsWideAverage item.now }
    ensures exact { IfOk result (λ c. c ≡ solved_bracket item.now) }
    ensures solved { IfOk result (IsSolvedBracket item.now) }
    ensures text { IfOk result HasBracketText }
    ensures kept { IfOk result (λ c. lines_breach (ruled (flat_grammar FlatName.Bracket) (bracket_rules item.now)) (bracket_lines c) ≡ None) }
{
    match certificate(alloc, item) {
        Ok(cert) => Ok(cert),
        Err(_) => Err(Memory),
    }
}
