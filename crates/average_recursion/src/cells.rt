// The cells of the entries.
ghost use Rattle.std.specs.Prelude.{◌≡◌, ◌*◌, ◌^◌, ◌<◌, ◌≤◌, pos, length, slice_set};

use crate::place::Place;

// The entries of a position.
#[derive(Clone, Copy, Debug)]
pub(crate) struct Entries {
    pub(crate) lower: u128,
    pub(crate) upper: u128,
}

// An entry over the denominator of another position.
fn scaled(entry: u128, factor: u128) -> i128
    requires { entry * factor ≤ 2 ^ 120 }
    ensures { result ≡ pos (entry * factor) }
{
    (entry * factor) as i128
}

// Keeps the entries of a place over another denominator, and goes on to the next place.
pub(crate) fn keep_entries(
    place: &mut Place,
    next: Place,
    factor: u128,
    lower: &mut [i128],
    upper: &mut [i128],
    entries: Entries,
)
    requires lower_room { place.old.count < length lower.old }
    requires upper_room { place.old.count < length upper.old }
    requires lower_small { entries.lower * factor ≤ 2 ^ 120 }
    requires upper_small { entries.upper * factor ≤ 2 ^ 120 }
    ensures place { place.new ≡ next }
    ensures lower { lower.new ≡ slice_set lower.old place.old.count (pos (entries.lower * factor)) }
    ensures upper { upper.new ≡ slice_set upper.old place.old.count (pos (entries.upper * factor)) }
{
    lower[place.count] = scaled(entries.lower, factor);
    upper[place.count] = scaled(entries.upper, factor);
    *place = next;
}
