// The positions of an instance, from the floor up, and what each costs in a period.
ghost use Rattle.std.specs.Prelude.{◌≡◌, ◌^◌, suc, sum, IfOk};
ghost use Rattle.decision_model.specs.WideAverage.{IsWideAverage};
ghost use Rattle.value_cert.specs.AverageValues.{lead_demand};

use decision_model::limits::PARTS;
use decision_model::{Average, Walk};
use demand_law::{Law, lead_sum};
use fraction128::power;
use std::alloc::{AllocError, Global};
use std::slice;

/// The positions, and what their costs take of an instance.
#[derive(Drop)]
pub(crate) struct Grid<'a> {
    item: &'a Average,
    // The law of the demands until an order has come.
    lead: Law,
    // The sum of its weights.
    unit: u128,
    ghost wide: { ∥ IsWideAverage item.now ∥₁ },
    ghost lead_is: { lead ≡ lead_demand item.now },
    ghost unit_is: { unit ≡ sum item.now.law ^ suc item.now.lead },
}

/// The cost of a period at each position, in parts.
#[derive(Drop)]
pub(crate) struct Costs {
    // Rounded down.
    pub(crate) low: Vec<u128>,
    // Rounded up.
    pub(crate) up: Vec<u128>,
}

// The law of the demands until an order has come; `Width` comes for no such instance.
fn lead_demand(alloc: Global, item: &Average) -> Result<Law, AllocError>
    requires { IsWideAverage item.now }
    ensures { IfOk result (λ law. law ≡ lead_demand item.now) }
{
    let count = item.lead as usize + 1;
    match lead_sum(alloc, slice::from_ref(&item.law), 0, count) {
        Ok(law) => Ok(law),
        Err(_) => Err(AllocError),
    }
}

impl<'a> Grid<'a> {
    ghost use Rattle.std.specs.Prelude.{◌≡◌, ◌-◌, ◌*◌, ◌<◌, IfOk};
    ghost use Rattle.decision_model.specs.Average.{average_positions};
    ghost use Rattle.decision_model.specs.Limits.{parts};
    ghost use Rattle.value_cert.specs.AverageValues.{at_place, stock_sum};
    ghost use Rattle.bracket_terms.specs.Grids.{IsAt, AreCosts};
    ghost use Rattle.bracket_terms.specs.GridKnown.{grid_item};

    pub(crate) fn new(alloc: Global, item: &'a Average) -> Result<Grid<'a>, AllocError>
        requires { IsWideAverage item.now }
        ensures { IfOk result (λ grid. grid_item grid ≡ item.now) }
    {
        let lead = lead_demand(alloc, item)?;
        let unit = power(item.law.total(), item.lead + 1);
        Ok(Grid { item, lead, unit })
    }

    // Stands at the floor.
    fn first(&self) -> Walk
        ensures { IsAt (grid_item self.now) result 0 }
    {
        let item = self.item;
        Walk::new(self.lead.weights(), item.holding, item.stockout, item.floor)
    }

    // Goes up to a place from the one below it; at the first place it stays.
    fn go_up(&self, walk: &mut Walk, k: usize)
        requires within { k < average_positions (grid_item self.now) }
        requires at { IsAt (grid_item self.now) walk.old (k - 1) }
        ensures { IsAt (grid_item self.now) walk.new k }
    {
        if k > 0 {
            walk.up(self.lead.weights());
        }
    }

    // Goes up to a place, and gives its cost in parts, times the unit.
    fn cost_at(&self, walk: &mut Walk, k: usize) -> u128
        requires within { k < average_positions (grid_item self.now) }
        requires at { IsAt (grid_item self.now) walk.old (k - 1) }
        ensures at { IsAt (grid_item self.now) walk.new k }
        ensures exact { result ≡ parts * stock_sum (grid_item self.now) (at_place (grid_item self.now) k) }
    {
        self.go_up(walk, k);
        PARTS * walk.value() as u128
    }

    /// The costs of all positions, of which there are `count`.
    pub(crate) fn costs(&self, alloc: Global, count: usize) -> Result<Costs, AllocError>
        requires { count ≡ average_positions (grid_item self.now) }
        ensures { IfOk result (AreCosts (grid_item self.now) (average_positions (grid_item self.now))) }
    {
        let mut low = Vec::with_capacity(alloc, count)?;
        let mut up = Vec::with_capacity(alloc, count)?;
        let mut walk = self.first();
        for k in 0..count {
            let cost = self.cost_at(&mut walk, k);
            low.push(cost / self.unit)?;
            up.push(cost.div_ceil(self.unit))?;
        }
        Ok(Costs { low, up })
    }
}
