// The factors of a period's costs.
ghost use Rattle.std.specs.Prelude.{◌≡◌, pos, ◌-◌, ◌*◌, ◌^◌, ◌≤◌};
ghost use Rattle.decision_model.specs.Finite.{IsValidFinite};
ghost use Rattle.finite_recursion.specs.Rows.{AreScales};

use decision_model::Finite;
use fraction128::power;
use value_cert::scale_of;

// What the costs of stock are taken times, and what an order costs, in whole numbers over the period's scale.
#[derive(Clone, Copy, Debug)]
pub(crate) struct Scales {
    // The factor on the cost of stock.
    pub(crate) stock: i128,
    // The setup cost.
    pub(crate) setup: i128,
    // The cost of each unit.
    pub(crate) unit: i128,
}

// A product of two factors that fits, as a signed number.
fn product(first: u128, second: u128) -> i128
    requires { first * second ≤ 2 ^ 120 }
    ensures { result ≡ pos (first * second) }
{
    (first * second) as i128
}

// The factors of the last of some rows.
pub(crate) fn scales_of(finite: &Finite, rows: u32) -> Scales
    requires valid { IsValidFinite finite.now }
    requires some { 1 ≤ rows }
    requires within { rows ≤ finite.now.periods }
    ensures { AreScales finite.now (rows - 1) result }
{
    let discounts = power(u128::from(finite.discount_den), rows);
    let weights = power(finite.laws.total(), rows - 1);
    let scale = scale_of(finite, rows);
    Scales {
        stock: product(discounts, weights),
        setup: product(scale, u128::from(finite.setup)),
        unit: product(scale, u128::from(finite.unit)),
    }
}
