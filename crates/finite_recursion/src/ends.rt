// The values after the last period.
ghost use Rattle.std.specs.Prelude.{◌≡◌, ℕ, ◌*◌, ◌^◌, ◌<◌, ◌≤◌, pos, ◌-ℤ◌, ◌≤ℤ◌, length, unsigned_abs};
ghost use Rattle.decision_model.specs.DemandLaws.{common_total};
ghost use Rattle.decision_model.specs.Finite.{IsValidFinite, finite_positions};
ghost use Rattle.decision_model.specs.FiniteProblem.{end_cost};
ghost use Rattle.decision_model.specs.Positions.{above_zero};
ghost use Rattle.value_cert.specs.FiniteValues.{end_value};
ghost use Rattle.finite_recursion.specs.Rows.{value_at};

use crate::row::position_at;
use decision_model::{Finite, above_zero};
use fraction128::power;

// What a position costs after the last period.
fn end_cost(finite: &Finite, at: i64) -> u128
    requires valid { IsValidFinite finite.now }
    requires near { unsigned_abs at ≤ 20000 }
    ensures cost { pos result ≡ end_cost finite.now at }
    ensures small { result ≤ 2 ^ 50 }
{
    let left = u128::from(finite.end_holding) * u128::from(above_zero(at));
    let lacks = u128::from(finite.end_stockout) * u128::from(above_zero(-at));
    left + lacks
}

// The value of a position after the last period, of which a cost is one `weight`th.
fn end_value(weight: u128, cost: u128) -> i128
    requires { weight * cost ≤ 2 ^ 120 }
    ensures { result ≡ pos (weight * cost) }
{
    (weight * cost) as i128
}

// Writes the values after the last period, from the cap down.
pub(crate) fn end_row(finite: &Finite, values: &mut [i128])
    requires valid { IsValidFinite finite.now }
    requires room { length values.old ≡ finite_positions finite.now }
    ensures same { length values.new ≡ length values.old }
    ensures values { (k : ℕ) → k < finite_positions finite.now → value_at values.new k ≡ end_value finite.now (finite.now.cap -ℤ pos k) }
{
    let weight = power(finite.laws.total(), finite.lead);
    for place in 0..values.len() {
        values[place] = end_value(weight, end_cost(finite, position_at(finite.cap, place)));
    }
}
