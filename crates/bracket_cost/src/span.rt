// The span of a certificate.
ghost use Rattle.std.specs.Prelude.{◌≡◌, ℕ, ◌<◌, ◌≤◌, ◌^◌, pos, ◌-ℤ◌, length, map, slice_index_or, unsigned_abs};
ghost use Rattle.fraction128.specs.Reduced.{lowest_num, lowest_den};
ghost use Rattle.decision_model.specs.Limits.{parts};
ghost use Rattle.decision_model.specs.Positions.{above_zero};
ghost use Rattle.decision_model.specs.WideAverage.{IsWideAverage};
ghost use Rattle.value_cert.specs.Bracket.{greatest_over, depth_over, span_in};
ghost use Rattle.value_cert.specs.BracketRules.{IsBracket};

use decision_model::Average;
use decision_model::limits::PARTS;
use fraction128::Frac;
use value_cert::{BracketCell, BracketCert};

// A number, or 0 in place of one below 0.
fn above_zero(number: i128) -> u128
    ensures { result ≡ above_zero number }
{
    if number < 0 {
        return 0;
    }
    number.unsigned_abs()
}

// How far a number is below 0.
fn below_zero(number: i128) -> u128
    ensures { result ≡ above_zero (pos 0 -ℤ number) }
{
    if number < 0 {
        return number.unsigned_abs();
    }
    0
}

// The greatest of a number and the upper entries.
fn greatest_over(most: u128, cells: &[BracketCell]) -> u128
    requires { (k : ℕ) → k < length cells.now → unsigned_abs (slice_index_or (map (λ cell. cell.over) cells.now) k (pos 0)) ≤ 2 ^ 119 }
    ensures { result ≡ greatest_over most (map (λ cell. cell.over) cells.now) }
{
    let mut greatest = most;
    for cell in cells {
        greatest = greatest.max(above_zero(cell.over));
    }
    greatest
}

// How far the least of 0 and the upper entries is below 0.
fn depth_over(cells: &[BracketCell]) -> u128
    requires { (k : ℕ) → k < length cells.now → unsigned_abs (slice_index_or (map (λ cell. cell.over) cells.now) k (pos 0)) ≤ 2 ^ 119 }
    ensures { result ≡ depth_over 0 (map (λ cell. cell.over) cells.now) }
{
    let mut depth = 0u128;
    for cell in cells {
        depth = depth.max(below_zero(cell.over));
    }
    depth
}

// A number with a sign.
fn signed(number: u128) -> i128
    requires { number ≤ 2 ^ 126 }
    ensures { result ≡ pos number }
{
    number as i128
}

/// The span of a certificate, in lowest terms: the greatest of 0, the setup cost and all upper entries, less the least of 0
/// and all of these.
pub fn bracket_span(item: &Average, cert: &BracketCert) -> Frac
    requires wide { IsWideAverage item.now }
    requires bracket { IsBracket item.now cert.now }
    ensures num { result.num ≡ lowest_num (pos (span_in item.now cert.now)) parts }
    ensures den { result.den ≡ lowest_den (pos (span_in item.now cert.now)) parts }
{
    let setup = u128::from(item.setup) * PARTS;
    let cells = cert.cells.as_slice();
    let span = greatest_over(setup, cells) + depth_over(cells);
    Frac::new(signed(span), PARTS)
}
