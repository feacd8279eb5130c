// The finite kind.
ghost use Rattle.std.specs.Prelude.{◌↔◌, IfSome, IsTrue};
ghost use Rattle.decision_model.specs.Finite.{IsMostOrder, IsReadableFinite};

use crate::laws::are_demand_laws;
use crate::positions::{is_cap, is_position_to};
use crate::rates::{is_discount, is_horizon};
use decision_model::Finite;
use decision_model::limits::{MOST_LEAD, MOST_ORDER, MOST_RATE, MOST_SETUP};

// Whether the greatest order of a period, if there is one, is in range.
fn is_most_order(most: Option<u64>) -> bool
    ensures { IsTrue result ↔ IfSome most IsMostOrder }
{
    match most {
        None => true,
        Some(order) => 1 <= order && order <= MOST_ORDER,
    }
}

// Whether numbers are in range, with a law or one each for all periods that a cost looks at.
pub(crate) fn is_readable_finite(finite: &Finite) -> bool
    ensures { IsTrue result ↔ IsReadableFinite finite.now }
{
    if !is_horizon(finite.periods) || finite.lead > MOST_LEAD || finite.setup > MOST_SETUP {
        return false;
    }
    if finite.unit > MOST_RATE || finite.holding > MOST_RATE || finite.stockout > MOST_RATE {
        return false;
    }
    if finite.end_holding > MOST_RATE || finite.end_stockout > MOST_RATE {
        return false;
    }
    if !is_discount(finite.discount_num, finite.discount_den) || !is_most_order(finite.most) {
        return false;
    }
    let places = (finite.periods + finite.lead) as usize;
    are_demand_laws(finite.laws.as_slice(), places)
        && is_cap(finite.cap)
        && is_position_to(finite.start, finite.cap)
}
