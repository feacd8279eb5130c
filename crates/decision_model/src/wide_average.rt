// The average kind on a wide range of positions.
ghost use Rattle.std.specs.Prelude.{◌≡◌, ◌↔◌, ◌^◌, ◌≤◌, nat_le, IsTrue};
ghost use Rattle.decision_model.specs.Average.{IsReadableAverage, average_positions};
ghost use Rattle.decision_model.specs.Limits.{most_wide_positions, most_bits};
ghost use Rattle.decision_model.specs.WideAverage.{wide_width};

use crate::average::{Average, average_cost_bound};
use crate::limits::{MOST_BITS, MOST_WIDE_POSITIONS, PARTS};
use fraction128::{checked_pow, within};

/// Whether the grid of positions is small enough to bound the average cost.
pub fn wide_grid_fits(average: &Average) -> bool
    requires { IsReadableAverage average.now }
    ensures meaning { IsTrue result ↔ (average_positions average.now ≤ most_wide_positions) }
    ensures exact { result ≡ nat_le (average_positions average.now) most_wide_positions }
{
    average.positions() <= MOST_WIDE_POSITIONS
}

fn is_wide_narrow(average: &Average) -> bool
    requires { IsReadableAverage average.now }
    ensures { IsTrue result ↔ (wide_width average.now ≤ 2 ^ 120) }
{
    let Some(weights) = checked_pow(average.law.total(), (average.lead + 1).max(2)) else {
        return false;
    };
    let positions = u128::from(average.positions());
    let cost = u128::from(average.setup) + average_cost_bound(average);
    within(&[4, positions, PARTS, cost, weights], MOST_BITS)
}

/// Whether the width number is small enough to bound the average cost.
pub fn wide_width_ok(average: &Average) -> bool
    requires { IsReadableAverage average.now }
    ensures meaning { IsTrue result ↔ (wide_width average.now ≤ 2 ^ most_bits) }
    ensures exact { result ≡ nat_le (wide_width average.now) (2 ^ most_bits) }
{
    is_wide_narrow(average)
}
