// The positions of the grid, from the floor up.
ghost use Rattle.std.specs.Prelude.{◌≡◌, ◌+◌, ◌<◌};
ghost use Rattle.decision_model.specs.Average.{IsValidAverage, average_positions};
ghost use Rattle.value_cert.specs.AverageValues.{at_place, lead_demand, stock_sum};
ghost use Rattle.average_recursion.specs.Rows.{AreTerms, IsPlace};

use crate::terms::Terms;
use decision_model::{Average, Walk};

// A position of the grid, or that behind the last one.
#[derive(Clone, Copy, Debug)]
pub(crate) struct Place {
    // How many positions of the grid are below it.
    pub(crate) count: usize,
    // The sum of the weights of the demands above 0, once for each position above it.
    pub(crate) power: u128,
    // Its cost in a period.
    pub(crate) walk: Walk,
}

// The floor. The weights are those of the lead time's law.
pub(crate) fn first_place(average: &Average, terms: &Terms, weights: &[u128]) -> Place
    requires valid { IsValidAverage average.now }
    requires terms { AreTerms average.now terms.now }
    requires weights { weights.now ≡ lead_demand average.now }
    ensures place { IsPlace average.now result }
    ensures first { result.count ≡ 0 }
{
    Place {
        count: 0,
        power: terms.last,
        walk: Walk::new(weights, average.holding, average.stockout, average.floor),
    }
}

// Goes up to the next position.
pub(crate) fn go_up(average: &Average, terms: &Terms, weights: &[u128], place: &mut Place)
    requires valid { IsValidAverage average.now }
    requires terms { AreTerms average.now terms.now }
    requires weights { weights.now ≡ lead_demand average.now }
    requires place { IsPlace average.now place.old }
    requires within { place.old.count < average_positions average.now }
    ensures place { IsPlace average.now place.new }
    ensures next { place.new.count ≡ place.old.count + 1 }
{
    let _instance = average;
    place.count += 1;
    place.power /= terms.moving;
    if place.count < terms.positions {
        place.walk.up(weights);
    }
}

// The cost of a period at a position.
pub(crate) fn stock_at(average: &Average, place: &Place) -> u128
    requires valid { IsValidAverage average.now }
    requires place { IsPlace average.now place.now }
    requires within { place.now.count < average_positions average.now }
    ensures { result ≡ stock_sum average.now (at_place average.now place.now.count) }
{
    let _instance = average;
    place.walk.value().unsigned_abs()
}
