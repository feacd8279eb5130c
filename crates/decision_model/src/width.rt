// Parts of width numbers.
ghost use Rattle.std.specs.Prelude.{◌≡◌, ◌+◌, ◌*◌, ◌≤◌, pos, ◌-ℤ◌, unsigned_abs};
ghost use Rattle.decision_model.specs.Positions.{above_zero};

use model_terms::above_zero;

// What some units cost at a rate.
pub(crate) fn cost_of(rate: u64, units: u64) -> u128
    requires rate { rate ≤ 20000000 }
    requires units { units ≤ 10000000 }
    ensures cost { result ≡ rate * units }
    ensures small { result ≤ 200000000000000 }
{
    u128::from(rate) * u128::from(units)
}

// The most that can lack at a position: the greatest demand in each period until an order comes, less the position.
pub(crate) fn most_lacking(lead: u32, greatest: u32, position: i64) -> u64
    requires lead { lead ≤ 8 }
    requires greatest { greatest ≤ 10000 }
    requires position { unsigned_abs position ≤ 2040000 }
    ensures lacking { result ≡ above_zero (pos ((lead + 1) * greatest) -ℤ position) }
    ensures small { result ≤ 2130000 }
{
    above_zero(i64::from((lead + 1) * greatest) - position)
}
