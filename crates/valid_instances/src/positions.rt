// Ranges of positions and caps.
ghost use Rattle.std.specs.Prelude.{◌↔◌, ◌≤ℤ◌, length, All, IsTrue};
ghost use Rattle.std.specs.List.{AllAdjacentBelow};
ghost use Rattle.decision_model.specs.Positions.{IsPosition, IsCap};

use decision_model::limits::{LEAST_POSITION, MOST_CAP, MOST_POSITION};

pub(crate) fn is_position(number: i64) -> bool
    ensures { IsTrue result ↔ IsPosition number }
{
    LEAST_POSITION <= number && number <= MOST_POSITION
}

// Whether a number is a position of at most the cap.
pub(crate) fn is_position_to(number: i64, cap: i64) -> bool
    ensures { IsTrue result ↔ (IsPosition number × (number ≤ℤ cap)) }
{
    is_position(number) && number <= cap
}

pub(crate) fn is_cap(number: i64) -> bool
    ensures { IsTrue result ↔ IsCap number }
{
    0 <= number && number <= MOST_CAP as i64
}

pub(crate) fn are_positions(numbers: &[i64]) -> bool
    ensures { IsTrue result ↔ All IsPosition numbers.now }
{
    numbers.iter().all(|number| is_position(*number))
}

// Whether no number is below the one before it.
pub(crate) fn are_never_falling(numbers: &[i64]) -> bool
    ensures { IsTrue result ↔ AllAdjacentBelow (λ x y. x ≤ℤ y) numbers.now (length numbers.now) }
{
    for place in 1..numbers.len() {
        if numbers[place] < numbers[place - 1] {
            return false;
        }
    }
    true
}
