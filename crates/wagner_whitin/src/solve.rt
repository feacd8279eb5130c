// The recursion over last order periods, and the plan read backwards from it.
ghost use Rattle.std.specs.Prelude.{◌≡◌, ℕ, ◌+◌, ◌-◌, ◌*◌, ◌^◌, ◌<◌, ◌≤◌, IfOk, length, slice_index, sum, take, drop, map, ◌==◌, if◌then◌else◌};
ghost use Rattle.std.specs.List.{range_with_len};
ghost use Rattle.decision_model.specs.Lots.{IsReadableLots, IsValidLots};
ghost use Rattle.value_cert.specs.LotsRules.{BreaksNoLotRule};
ghost use Rattle.value_cert.specs.LotPlans.{LeastPlan};
ghost use Rattle.value_cert.specs.LotRecursion.{cost_by, least_costs, last_order, least_plan, next_cost, solved_lots};
ghost use Rattle.wagner_whitin.specs.LastOrders.{HasLastOrders};
ghost use Rattle.value_cert.specs.Texts.{HasText};
ghost use Rattle.value_cert.specs.declared.cert.Cert.TheVariants as cert;

use decision_model::{Amounts, LotSize};
use fraction128::Memory;
use std::alloc::{AllocError, Global};
use value_cert::LotCert;

// A last order period, and the cost with the last order in it.
#[derive(Clone, Copy)]
struct LastOrder {
    period: usize,
    cost: u64,
}

// The cost with the last order in a period, which has to cover some units and to pay for holding them.
fn cost_with(lots: &LotSize, costs: &[u64], period: usize, units: u64, held: u64) -> u64
    requires readable { IsReadableLots lots.now }
    requires within { period < length lots.now.demand }
    requires costs { period < length costs.now }
    requires small { slice_index costs.now period ≤ 4000000000000000 }
    requires units { units ≤ 2000000000 }
    requires held { held ≤ 4000000000000000000 }
    ensures { result ≡ slice_index costs.now period + (slice_index lots.now.setup period + (slice_index lots.now.unit period * units + held)) }
{
    let setup = lots.setup.as_slice()[period];
    let unit = lots.unit.as_slice()[period];
    costs[period] + (setup + (unit * units + held))
}

// The last order period of a least plan up to a period, the latest one if there are several. None is before `first`.
fn find_last_order(lots: &LotSize, costs: &[u64], first: usize, period: usize) -> LastOrder
    requires valid { IsValidLots lots.now }
    requires within { period < length lots.now.demand }
    requires first { first ≤ last_order lots.now period }
    requires costs { costs.now ≡ least_costs lots.now period }
    ensures period { result.period ≡ last_order lots.now period }
    ensures cost { result.cost ≡ cost_by lots.now (least_costs lots.now period) period (last_order lots.now period) }
{
    let demand = lots.demand.as_slice();
    let holding = lots.holding.as_slice();
    let mut units = demand[period];
    let mut held = 0;
    let mut last = LastOrder {
        period,
        cost: cost_with(lots, costs, period, units, held),
    };
    for start in (first..period).rev() {
        held += holding[start] * units;
        units += demand[start];
        let cost = cost_with(lots, costs, start, units, held);
        if cost < last.cost {
            last = LastOrder {
                period: start,
                cost,
            };
        }
    }
    last
}

// The last order period so far, and the least cost up to a period.
fn next(lots: &LotSize, costs: &[u64], first: usize, period: usize) -> LastOrder
    requires valid { IsValidLots lots.now }
    requires within { period < length lots.now.demand }
    requires first { first ≤ last_order lots.now period }
    requires costs { costs.now ≡ least_costs lots.now period }
    ensures period { result.period ≡ (if slice_index lots.now.demand period == 0 then first else last_order lots.now period) }
    ensures cost { result.cost ≡ next_cost lots.now (least_costs lots.now period) period }
{
    if lots.demand.as_slice()[period] == 0 {
        return LastOrder {
            period: first,
            cost: costs[period],
        };
    }
    find_last_order(lots, costs, first, period)
}

// The least costs of the first 0, 1, 2, .. periods, and the last order period so far of each period.
#[derive(Drop)]
struct Recursion {
    costs: Vec<u64>,
    last_orders: Vec<usize>,
}

fn run_recursion(alloc: Global, lots: &LotSize) -> Result<Recursion, AllocError>
    requires { IsValidLots lots.now }
    ensures costs { IfOk result (λ r. r.costs.items ≡ least_costs lots.now (length lots.now.demand)) }
    ensures last_orders { IfOk result (λ r. HasLastOrders lots.now r.last_orders.items) }
{
    let periods = lots.demand.as_slice().len();
    let mut costs = Vec::new(alloc);
    costs.push(0)?;
    let mut last_orders = Vec::new(alloc);
    let mut first = 0;
    for period in 0..periods {
        let last = next(lots, &costs, first, period);
        first = last.period;
        costs.push(last.cost)?;
        last_orders.push(last.period)?;
    }
    Ok(Recursion { costs, last_orders })
}

fn total(amounts: &[u64]) -> u64
    requires { sum amounts.now < 2 ^ 64 }
    ensures { result ≡ sum amounts.now }
{
    amounts.iter().sum()
}

// The sum of the amounts from a place to another.
fn total_between(amounts: &[u64], start: usize, end: usize) -> u64
    requires ordered { start ≤ end }
    requires within { end ≤ length amounts.now }
    requires fits { sum (take (end - start) (drop start amounts.now)) < 2 ^ 64 }
    ensures { result ≡ sum (take (end - start) (drop start amounts.now)) }
{
    total(&amounts[start..end])
}

// The orders, read backwards: the demand from a last order period on is ordered in it.
fn read_orders(alloc: Global, lots: &LotSize, last_orders: &[usize]) -> Result<Vec<u64>, AllocError>
    requires valid { IsValidLots lots.now }
    requires last_orders { HasLastOrders lots.now last_orders.now }
    ensures { IfOk result (λ v. v.items ≡ least_plan lots.now (length lots.now.demand)) }
{
    let demand = lots.demand.as_slice();
    let mut orders = vec![in alloc; 0; demand.len()]?;
    let mut unread = demand.len();
    while unread > 0 {
        let period = unread - 1;
        if demand[period] == 0 {
            unread = period;
        } else {
            let start = last_orders[period];
            orders[start] = total_between(demand, start, unread);
            unread = start;
        }
    }
    Ok(orders)
}

// What each period adds to the cost.
fn differences(alloc: Global, costs: &[u64]) -> Result<Vec<u64>, AllocError>
    requires some { 0 < length costs.now }
    requires rising { (k : ℕ) → k + 1 < length costs.now → slice_index costs.now k ≤ slice_index costs.now (k + 1) }
    ensures { IfOk result (λ v. v.items ≡ map (λ k. slice_index costs.now (k + 1) - slice_index costs.now k) (range_with_len 0 (length costs.now - 1))) }
{
    let mut differences = Vec::new(alloc);
    for period in 1..costs.len() {
        differences.push(costs[period] - costs[period - 1])?;
    }
    Ok(differences)
}

fn certificate(alloc: Global, lots: &LotSize) -> Result<LotCert, AllocError>
    requires { IsValidLots lots.now }
    ensures { IfOk result (λ c. c ≡ solved_lots lots.now) }
{
    let recursion = run_recursion(alloc, lots)?;
    let orders = read_orders(alloc, lots, &recursion.last_orders)?;
    let duals = differences(alloc, &recursion.costs)?;
    let cost = u128::from(recursion.costs[lots.demand.as_slice().len()]);
    Ok(LotCert {
        orders: Amounts::new(orders),
        duals: Amounts::new(duals),
        cost,
    })
}

/// A least plan of orders for known demand, and what the demand of each period adds to the least cost, by the recursion
/// of Wagner and Whitin (1958). Of several plans it is the one whose last orders come latest. `Memory` is its only
/// refusal.
///
/// Without speculative costs the last order period never moves back as the horizon grows (their planning horizon
/// theorem), so the search for it begins at the one of the period before. With T periods it takes at most T²/2 steps of
/// a few additions each, and it keeps a few numbers a period. No number passes 2^63: a dual is at most the setup and the
/// units of its own period, some 2·10^12, and a cost that is looked at is at most some 4·10^18.
pub fn solve_lots(alloc: Global, lots: &LotSize) -> Result<LotCert, Memory>
    requires { IsValidLots lots.now }
    ensures exact { IfOk result (λ c. c ≡ solved_lots lots.now) }
    ensures least { IfOk result (λ c. LeastPlan lots.now c.orders c.cost) }
    ensures dual { IfOk result (λ c. sum c.duals ≡ c.cost) }
    ensures accepted { IfOk result (BreaksNoLotRule lots.now) }
    ensures text { IfOk result (λ c. HasText (cert.Lots c)) }
{
    match certificate(alloc, lots) {
        Ok(found) => Ok(found),
        Err(_) => Err(Memory),
    }
}
