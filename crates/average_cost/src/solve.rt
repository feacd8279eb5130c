// The solver.
ghost use Rattle.std.specs.Prelude.{◌^◌, ◌≡◌, ◌+◌, ◌-◌, ◌<◌, ◌≤◌, IfOk, length, slice_index, pos, ◌+ℤ◌, ◌-ℤ◌, map};
ghost use Rattle.std.specs.List.{range_with_len};
ghost use Rattle.decision_model.specs.Average.{IsValidAverage, average_positions};
ghost use Rattle.decision_model.specs.declared.instance.Instance.TheVariants as instance;
ghost use Rattle.value_cert.specs.AverageRules.{IsLeastAverage, solved_average};
ghost use Rattle.value_cert.specs.AverageValues.{at_place, lead_demand};
ghost use Rattle.value_cert.specs.Kept.{BreaksNoRule};
ghost use Rattle.value_cert.specs.Texts.{HasText};
ghost use Rattle.value_cert.specs.declared.cert.Cert.TheVariants as cert;
ghost use Rattle.average_cost.specs.Cells.{cell_at};
ghost use Rattle.average_cost.specs.Grids.{AreTerms};
ghost use Rattle.average_cost.specs.Turns.{ratio_of};

use crate::gain::{Lines, find_gain};
use crate::grid::Terms;
use crate::moves::list_moves;
use crate::tables::{first_cheap, lower_table, upper_table};
use decision_model::{Average, Items};
use demand_law::{Law, lead_sum};
use fraction128::{Memory, power};
use std::alloc::{AllocError, Global};
use std::slice;
use value_cert::{AverageCell, AverageCert};

// The position of a place.
fn position_of(item: &Average, k: usize) -> i64
    requires valid { IsValidAverage item.now }
    requires within { k ≤ 4000 }
    ensures { result ≡ at_place item.now k }
{
    item.floor + k as i64
}

// The cells of all places.
fn list_cells(
    alloc: Global,
    item: &Average,
    lower: &[u128],
    upper: &[u128],
) -> Result<Vec<AverageCell>, AllocError>
    requires valid { IsValidAverage item.now }
    requires lower { length lower.now ≡ average_positions item.now }
    requires upper { length upper.now ≡ average_positions item.now }
    ensures { IfOk result (λ cells. cells.items ≡ map (cell_at item.now (slice_index lower.now) (slice_index upper.now)) (range_with_len 0 (average_positions item.now))) }
{
    let count = lower.len();
    let mut cells = Vec::with_capacity(alloc, count)?;
    for k in 0..count {
        cells.push(AverageCell {
            at: position_of(item, k),
            lower: lower[k],
            upper: upper[k],
        })?;
    }
    Ok(cells)
}

// The law of the demands until an order has come; `Width` comes for no valid instance.
fn lead_demand(alloc: Global, item: &Average) -> Result<Law, AllocError>
    requires { IsValidAverage item.now }
    ensures { IfOk result (λ law. law ≡ lead_demand item.now) }
{
    let count = item.lead as usize + 1;
    match lead_sum(alloc, slice::from_ref(&item.law), 0, count) {
        Ok(law) => Ok(law),
        Err(_) => Err(AllocError),
    }
}

// What the equations take of an instance.
fn terms_of(alloc: Global, item: &Average) -> Result<Terms, AllocError>
    requires { IsValidAverage item.now }
    ensures { IfOk result (AreTerms item.now) }
{
    let total = item.law.total();
    let moving = total - item.law.weight(0);
    let count = item.positions() as usize;
    let weights = power(total, item.lead);
    Ok(Terms {
        moves: list_moves(alloc, item.law.weights(), moving, count)?,
        lead: lead_demand(alloc, item)?,
        moving,
        unit: weights * total,
        below: u128::from(item.setup) * weights,
        count,
    })
}

fn certificate(alloc: Global, item: &Average) -> Result<AverageCert, AllocError>
    requires { IsValidAverage item.now }
    ensures { IfOk result (λ c. c ≡ solved_average item.now) }
{
    let terms = terms_of(alloc, item)?;
    let mut lines = Lines {
        constants: Vec::with_capacity(alloc, terms.count)?,
        slopes: Vec::with_capacity(alloc, terms.count)?,
        next: None,
    };
    let g = find_gain(item, &terms, &mut lines)?;
    let first = first_cheap(item, &terms, g);
    let zero = lower_table(item, &terms, g, &mut lines.constants)?;
    upper_table(item, &terms, g, first, &mut lines.slopes)?;
    let cells = list_cells(alloc, item, &lines.constants, &lines.slopes)?;
    Ok(AverageCert {
        num: g.num,
        den: g.den,
        low: position_of(item, first) - 1,
        high: position_of(item, zero),
        cells: Items::new(cells),
    })
}

/// Least average cost over every number of periods: the certificate of the equations. The average cost is found by turns,
/// which begin where the value of the floor is 0: at each turn the positions' values are lines in the average cost, by the
/// choices of that turn, and the next average cost is where the line of a position whose value is below 0 meets 0.
/// `Memory` is its only refusal.
///
/// A turn is one pass over the grid, with one multiplication for each demand above 0 of positive weight at each position.
/// It keeps the certificate, two numbers for each position, two numbers for each demand and the law of the lead time. No
/// number passes the instance's width number, which is at most 2^120.
pub fn solve_average(alloc: Global, item: &Average) -> Result<AverageCert, Memory>
    requires { IsValidAverage item.now }
    ensures exact { IfOk result (λ c. c ≡ solved_average item.now) }
    ensures least { IfOk result (IsLeastAverage item.now) }
    ensures accepted { IfOk result (λ c. BreaksNoRule (instance.Average item.now) (cert.Average c)) }
    ensures text { IfOk result (λ c. HasText (cert.Average c)) }
{
    match certificate(alloc, item) {
        Ok(cert) => Ok(cert),
        Err(_) => Err(Memory),
    }
}
