// The positions of the grid, from the floor up, and what the equations take of each.
ghost use Rattle.std.specs.Prelude.{◌≡◌, ◌-◌, ◌<◌};
ghost use Rattle.decision_model.specs.Average.{IsValidAverage, average_positions};
ghost use Rattle.value_cert.specs.AverageValues.{at_place, stock_sum};
ghost use Rattle.average_cost.specs.Grids.{AreTerms, IsPlace};

use crate::moves::Move;
use decision_model::{Average, Walk};
use demand_law::Law;

/// What the equations of all positions take of an instance.
#[derive(Drop)]
pub(crate) struct Terms {
    pub(crate) moves: Vec<Move>,
    /// The law of the demands until an order has come.
    pub(crate) lead: Law,
    /// The sum of the weights of the demands above 0.
    pub(crate) moving: u128,
    /// The sum of all weights, once for each period until an order has come.
    pub(crate) unit: u128,
    /// The setup cost, times that sum once for each period of the lead time.
    pub(crate) below: u128,
    /// How many positions there are.
    pub(crate) count: usize,
}

/// A position of the grid.
#[derive(Clone, Copy, Debug)]
pub(crate) struct Place {
    // Its cost in a period.
    walk: Walk,
    /// The sum of the weights of the demands above 0, to the power of the place.
    pub(crate) power: u128,
    /// The sum of the weights of the demands that lead below the floor.
    pub(crate) rest: u128,
}

// The first position, which is the floor.
pub(crate) fn first_place(item: &Average, terms: &Terms) -> Place
    requires valid { IsValidAverage item.now }
    requires terms { AreTerms item.now terms.now }
    ensures { IsPlace item.now result 0 }
{
    Place {
        walk: Walk::new(
            terms.lead.weights(),
            item.holding,
            item.stockout,
            item.floor,
        ),
        power: 1,
        rest: terms.moving,
    }
}

// Goes up to a place from the one below it; at the first place it stays.
pub(crate) fn go_up(item: &Average, terms: &Terms, place: &mut Place, k: usize)
    requires valid { IsValidAverage item.now }
    requires terms { AreTerms item.now terms.now }
    requires within { k < average_positions item.now }
    requires place { IsPlace item.now place.old (k - 1) }
    ensures { IsPlace item.now place.new k }
{
    if k > 0 {
        place.walk.up(terms.lead.weights());
        place.power *= terms.moving;
        place.rest -= item.law.weight(k as u32);
    }
}

// The cost of a period at a place.
pub(crate) fn stock_at(item: &Average, place: &Place, k: usize) -> u128
    requires valid { IsValidAverage item.now }
    requires within { k < average_positions item.now }
    requires place { IsPlace item.now place.now k }
    ensures { result ≡ stock_sum item.now (at_place item.now k) }
{
    let _instance = item;
    place.walk.value() as u128
}
