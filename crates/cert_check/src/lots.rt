// The rules of lots.
ghost use Rattle.std.specs.Prelude.{◌≡◌, ℕ, ◌+◌, ◌-◌, ◌*◌, ◌^◌, ◌<◌, ◌≤◌, ◌==◌, ◌&&◌, ◌||◌, not, nat_le, pos, ℤ, unsigned_abs, List, [], ◌∷◌, ◌++◌, length, sum, slice_index, slice_set, true, false, Some, None, if◌then◌else◌, MatchOption};
ghost use Rattle.decision_model.specs.declared.lots.LotSize.{LotSize};
ghost use Rattle.decision_model.specs.Lots.{IsReadableLots, IsValidLots};
ghost use Rattle.value_cert.specs.Grammar.{has_numbers};
ghost use Rattle.value_cert.specs.LotPlans.{holding_between, serving_cost};
ghost use Rattle.value_cert.specs.Numbers.{is_natural, is_number};
ghost use Rattle.value_cert.specs.declared.line.CertLine.{CertLine};
ghost use Rattle.cert_check.specs.LotCells.{cell_at, raised_cell};

use crate::kind_rules::KindRules;
use decision_model::LotSize;
use value_cert::CertLine;

// What the orders and the duals so far come to.
#[derive(Clone, Copy)]
struct Totals {
    // How many periods have an order so far.
    periods: usize,
    ordered: u64,
    demanded: u64,
    duals: u128,
    cost: u128,
    ghost few_periods: { periods ≤ 2000 },
    ghost small_duals: { duals ≤ 2000000000000 * periods },
    ghost small_cost: { cost ≤ 2 ^ 88 * periods },
}

/// A check of a lot plan's certificate. It keeps one number a period, and beside them a few sums.
#[derive(Drop)]
pub(crate) struct LotsCheck<'a> {
    lots: &'a LotSize,
    // The demand of all periods.
    whole: u64,
    // For each period so far, by how much the duals from it on exceed the cost of serving them from it.
    excesses: &'a mut [i128],
    totals: Totals,
    ghost valid: { IsValidLots lots.now },
    ghost room: { length excesses.now ≡ length lots.now.demand },
}

fn total(amounts: &[u64]) -> u64
    requires { sum amounts.now < 2 ^ 64 }
    ensures { result ≡ sum amounts.now }
{
    amounts.iter().sum()
}

// What serving the demand of a period costs from an order in an earlier one or in itself, until when a unit costs `held`
// to hold.
fn cost_of_serving(lots: &LotSize, start: usize, period: usize, held: u64) -> u64
    requires readable { IsReadableLots lots.now }
    requires start { start ≤ period }
    requires period { period < length lots.now.demand }
    requires held { held ≡ holding_between lots.now start period }
    ensures { result ≡ serving_cost lots.now start period }
{
    lots.demand.as_slice()[period] * (lots.unit.as_slice()[start] + held)
}

// Adds to the cell of a period how far a dual exceeds the cost of serving the demand from it, unless that passes the
// setup. Whether it doesn't.
fn add_excess(lots: &LotSize, excesses: &mut [i128], start: usize, cost: u64, dual: u128) -> bool
    requires readable { IsReadableLots lots.now }
    requires start { start < length lots.now.demand }
    requires room { length excesses.old ≡ length lots.now.demand }
    requires dual { dual ≤ 2 ^ 120 }
    ensures passes { result ≡ nat_le (cell_at excesses.old start + (dual - cost)) (slice_index lots.now.setup start) }
    ensures cells { excesses.new ≡ (if result then slice_set excesses.old start (pos (cell_at excesses.old start + (dual - cost))) else excesses.old) }
{
    let excess = excesses[start].unsigned_abs() + dual.saturating_sub(u128::from(cost));
    if excess > u128::from(lots.setup.as_slice()[start]) {
        return false;
    }
    excesses[start] = excess as i128;
    true
}

// Adds the dual of a period to the cells of the periods up to it. Whether none of them passes its setup; where one does,
// the cells are of no further use. Before the first period from which serving costs no less than the dual none costs
// less, so that no earlier cell changes.
fn add_dual(lots: &LotSize, excesses: &mut [i128], period: usize, dual: u128) -> bool
    requires valid { IsValidLots lots.now }
    requires period { period < length lots.now.demand }
    requires room { length excesses.old ≡ length lots.now.demand }
    requires dual { dual ≤ 2 ^ 120 }
    ensures own { result ≡ true → raised_cell lots.now excesses.old period dual period ≤ slice_index lots.now.setup period }
    ensures within { result ≡ true → ((t : ℕ) → t < period → cell_at excesses.old t ≤ slice_index lots.now.setup t) →
        (t : ℕ) → t ≤ period → raised_cell lots.now excesses.old period dual t ≤ slice_index lots.now.setup t }
    ensures past { result ≡ false → (t : ℕ) × (t ≤ period) × (slice_index lots.now.setup t < raised_cell lots.now excesses.old period dual t) }
    ensures cells { result ≡ true → (t : ℕ) → t ≤ period → cell_at excesses.new t ≡ raised_cell lots.now excesses.old period dual t }
{
    let holding = lots.holding.as_slice();
    excesses[period] = 0;
    let cost = cost_of_serving(lots, period, period, 0);
    if !add_excess(lots, excesses, period, cost, dual) {
        return false;
    }
    let mut held = 0;
    for start in (0..period).rev() {
        held += holding[start];
        let cost = cost_of_serving(lots, start, period, held);
        if dual <= u128::from(cost) {
            return true;
        }
        if !add_excess(lots, excesses, start, cost, dual) {
            return false;
        }
    }
    true
}

// Whether a period has demand, or a dual of 0.
fn is_dual_of_demand(lots: &LotSize, period: usize, dual: u128) -> bool
    requires { period < length lots.now.demand }
    ensures { result ≡ (not (slice_index lots.now.demand period == 0) || (dual == 0)) }
{
    lots.demand.as_slice()[period] != 0 || dual == 0
}

// The setup that an order pays in a period.
fn setup_of(lots: &LotSize, period: usize, order: u64) -> u64
    requires readable { IsReadableLots lots.now }
    requires period { period < length lots.now.demand }
    ensures setup { result ≡ (if order == 0 then 0 else slice_index lots.now.setup period) }
    ensures small { result ≤ 1000000000000 }
{
    if order == 0 {
        return 0;
    }
    lots.setup.as_slice()[period]
}

// What a period costs, of which an order and the stock at its end are known.
fn cost_of_period(lots: &LotSize, period: usize, order: u64, stock: u64) -> u128
    requires readable { IsReadableLots lots.now }
    requires period { period < length lots.now.demand }
    ensures cost { result ≡ (if order == 0 then 0 else slice_index lots.now.setup period) + slice_index lots.now.unit period * order + slice_index lots.now.holding period * stock }
    ensures small { result ≤ 2 ^ 88 }
{
    let unit = lots.unit.as_slice()[period];
    let holding = lots.holding.as_slice()[period];
    let setup = u128::from(setup_of(lots, period, order));
    setup + u128::from(unit) * u128::from(order) + u128::from(holding) * u128::from(stock)
}

impl Totals {
    // Whether the orders with one more cover the demand with that of one more period, and are at most the whole demand.
    fn is_covered(self, lots: &LotSize, whole: u64, order: u128) -> bool
        requires period { self.periods < length lots.now.demand }
        requires order { order ≤ 2 ^ 120 }
        ensures { result ≡ (nat_le (self.demanded + slice_index lots.now.demand self.periods) (self.ordered + order) && nat_le (self.ordered + order) whole) }
    {
        let demand = lots.demand.as_slice()[self.periods];
        let demanded = u128::from(self.demanded) + u128::from(demand);
        let ordered = u128::from(self.ordered) + order;
        demanded <= ordered && ordered <= u128::from(whole)
    }

    // With the order of one more period and its dual.
    fn with_order(self, lots: &LotSize, order: u64, dual: u128) -> Totals
        requires readable { IsReadableLots lots.now }
        requires period { self.periods < length lots.now.demand }
        requires fits { self.ordered + order < 2 ^ 64 }
        requires covered { self.demanded + slice_index lots.now.demand self.periods ≤ self.ordered + order }
        requires dual { dual ≤ 2000000000000 }
        ensures periods { result.periods ≡ self.periods + 1 }
        ensures ordered { result.ordered ≡ self.ordered + order }
        ensures demanded { result.demanded ≡ self.demanded + slice_index lots.now.demand self.periods }
        ensures duals { result.duals ≡ self.duals + dual }
        ensures cost { result.cost ≡ self.cost + ((if order == 0 then 0 else slice_index lots.now.setup self.periods) + slice_index lots.now.unit self.periods * order
            + slice_index lots.now.holding self.periods * (self.ordered + order - (self.demanded + slice_index lots.now.demand self.periods))) }
    {
        let ordered = self.ordered + order;
        let demanded = self.demanded + lots.demand.as_slice()[self.periods];
        let cost = cost_of_period(lots, self.periods, order, ordered - demanded);
        Totals {
            periods: self.periods + 1,
            ordered,
            demanded,
            duals: self.duals + dual,
            cost: self.cost + cost,
        }
    }
}

impl<'a> LotsCheck<'a> {
    ghost use Rattle.value_cert.specs.LotsRules.{FirstOrders, no_orders, named_orders, next_order_rule, lots_rule};
    ghost use Rattle.cert_check.specs.LotsChecks.{KnowsPlan};

    pub(crate) fn new(lots: &'a LotSize, excesses: &'a mut [i128]) -> LotsCheck<'a>
        requires valid { IsValidLots lots.now }
        requires room { length excesses.old ≡ length lots.now.demand }
        ensures lots { result.lots.now ≡ lots.now }
        ensures plan { KnowsPlan result no_orders }
    {
        LotsCheck {
            lots,
            whole: total(lots.demand.as_slice()),
            excesses,
            totals: Totals {
                periods: 0,
                ordered: 0,
                demanded: 0,
                duals: 0,
                cost: 0,
            },
        }
    }

    // Takes a line that may stand behind those so far: the least rule from 2 on that it breaks. An order takes a pass
    // over the periods up to its own, any other line none.
    fn take(&mut self, line: &CertLine) -> Option<u32>
        requires { has_numbers line.now ≡ true }
        ensures lots { self.new.lots.now ≡ self.old.lots.now }
        ensures rule { (first : FirstOrders) → KnowsPlan self.old first → result ≡ lots_rule self.old.lots.now first line.now }
        ensures plan { (first : FirstOrders) → KnowsPlan self.old first → result ≡ None →
            KnowsPlan self.new (named_orders first line.now) }
    {
        match *line {
            CertLine::Order(order, dual) => self.take_order(
                order.unsigned_abs(),
                dual.unsigned_abs(),
            ),
            CertLine::Cost(cost) => self.broken_by_cost(cost),
            _ => None,
        }
    }

    fn broken_by_cost(&self, cost: i128) -> Option<u32>
        ensures { result ≡ (if self.now.totals.periods == length self.now.lots.now.demand then
            (if is_number (pos self.now.totals.cost) cost then (if is_number (pos self.now.totals.duals) cost then None else Some 6) else Some 5) else Some 2) }
    {
        if self.totals.periods != self.lots.demand.as_slice().len() {
            return Some(2);
        }
        if cost != self.totals.cost as i128 {
            return Some(5);
        }
        if cost != self.totals.duals as i128 {
            return Some(6);
        }
        None
    }

    // Takes the order of a period and its dual.
    fn take_order(&mut self, order: u128, dual: u128) -> Option<u32>
        requires order { order ≤ 2 ^ 120 }
        requires dual { dual ≤ 2 ^ 120 }
        ensures lots { self.new.lots.now ≡ self.old.lots.now }
        ensures rule { (first : FirstOrders) → KnowsPlan self.old first → result ≡ next_order_rule self.old.lots.now first order dual }
        ensures plan { (first : FirstOrders) → KnowsPlan self.old first → result ≡ None →
            KnowsPlan self.new (record { orders = first.orders ++ order ∷ []; duals = first.duals ++ dual ∷ [] }) }
    {
        let period = self.totals.periods;
        if period >= self.lots.demand.as_slice().len() {
            return Some(2);
        }
        if !self.totals.is_covered(self.lots, self.whole, order) {
            return Some(3);
        }
        if !is_dual_of_demand(self.lots, period, dual) {
            return Some(4);
        }
        if !add_dual(self.lots, self.excesses, period, dual) {
            return Some(4);
        }
        self.totals = self.totals.with_order(self.lots, order as u64, dual);
        None
    }
}

impl<'a> KindRules for LotsCheck<'a> {
    ghost use Rattle.cert_check.specs.LotsChecks.{KnowsLots};

    ghost knows = { KnowsLots };

    fn feed(&mut self, line: &CertLine) -> Option<u32> {
        self.take(line)
    }
}
