// The levels of an echelon by its costs of orders.
ghost use Rattle.std.specs.Prelude.{◌≡◌, ◌+◌, ◌-◌, ◌<◌, ◌≤◌, length, int_lt, if◌then◌else◌, IfSome, MatchOption};
ghost use Rattle.std.specs.List.{list_all, range_with_len};
ghost use Rattle.newsvendor.specs.Least.{first_least_upto};
ghost use Rattle.serial_recursion.specs.Rows.{turns_from, value_at};

// The place of the lower cost, and the earlier one of two equal ones.
fn better(costs: &[i128], place: usize, next: usize) -> usize
    requires place { place < length costs.now }
    requires next { next < length costs.now }
    ensures { result ≡ (if int_lt (value_at costs.now next) (value_at costs.now place) then next else place) }
{
    if costs[next] < costs[place] {
        next
    } else {
        place
    }
}

// The first of so many places at which the costs are least.
fn least_place(costs: &[i128], count: usize) -> usize
    requires some { 0 < count }
    requires costs { count ≤ length costs.now }
    ensures exact { result ≡ first_least_upto (value_at costs.now) (count - 1) }
    ensures within { result < count }
{
    let mut least = 0;
    for place in 1..count {
        least = better(costs, least, place);
    }
    least
}

// The given place, or with none given the first of so many at which the costs are least.
pub(crate) fn place_or_least(given: Option<usize>, costs: &[i128], count: usize) -> usize
    requires some { 0 < count }
    requires costs { count ≤ length costs.now }
    requires given { IfSome given (λ place. place < count) }
    ensures place { MatchOption given (result ≡ first_least_upto (value_at costs.now) (count - 1)) (λ place. result ≡ place) }
    ensures within { result < count }
{
    match given {
        Some(place) => place,
        None => least_place(costs, count),
    }
}

// Whether the costs don't rise from a place to the next one below the level's place, or don't fall from it on.
fn turns(costs: &[i128], level: usize, place: usize) -> bool
    requires { place + 1 < length costs.now }
    ensures { result ≡ turns_from (value_at costs.now) level place }
{
    if place < level {
        costs[place + 1] <= costs[place]
    } else {
        costs[place] <= costs[place + 1]
    }
}

// Whether the costs of so many places turn at the level's place.
pub(crate) fn turns_at(costs: &[i128], level: usize, count: usize) -> bool
    requires some { 0 < count }
    requires costs { count ≤ length costs.now }
    ensures { result ≡ list_all (turns_from (value_at costs.now) level) (range_with_len 0 (count - 1)) }
{
    for place in 0..count - 1 {
        if !turns(costs, level, place) {
            return false;
        }
    }
    true
}
