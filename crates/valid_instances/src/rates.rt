// Ranges of horizons and discounts.
ghost use Rattle.std.specs.Prelude.{◌↔◌, IsTrue};
ghost use Rattle.decision_model.specs.Rates.{IsHorizon, IsDiscount};

use decision_model::limits::{MOST_DISCOUNT, MOST_PERIODS};

pub(crate) fn is_horizon(periods: u32) -> bool
    ensures { IsTrue result ↔ IsHorizon periods }
{
    (1..=MOST_PERIODS).contains(&periods)
}

pub(crate) fn is_discount(num: u32, den: u32) -> bool
    ensures { IsTrue result ↔ IsDiscount num den }
{
    1 <= num && num <= den && den <= MOST_DISCOUNT
}
