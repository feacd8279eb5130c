// A row of the recursion.
ghost use Rattle.std.specs.Prelude.{◌≡◌, ℕ, ℤ, suc, ◌+◌, ◌-◌, ◌^◌, ◌<◌, ◌≤◌, pos, ◌+ℤ◌, ◌-ℤ◌, ◌*ℤ◌, ◌≤ℤ◌, List, [], ◌∷◌, ◌++◌, length, take, slice_set, unsigned_abs, Option};
ghost use Rattle.decision_model.specs.Finite.{IsValidFinite, finite_positions};
ghost use Rattle.decision_model.specs.Stock.{AreWeights, HasRoom};
ghost use Rattle.decision_model.specs.Walks.{IsWalk, IsWalkOf, place_of, over_of, under_of};
ghost use Rattle.value_cert.specs.FiniteValues.{lead_law, row_width};
ghost use Rattle.finite_recursion.specs.Rows.{row_period, reach_room, IsReachOf, AreScales, HoldsLaws};
ghost use Rattle.finite_recursion.specs.Tables.{capacity_cells, sums_needed};

use crate::costs::cost_with_units;
use crate::laws::{HeldLaws, renew_laws};
use crate::reach::Reach;
use crate::scales::{Scales, scales_of};
use decision_model::{Finite, Walk};

// What the recursion keeps of the last row beside its tables.
#[derive(Clone, Copy, Debug)]
pub(crate) struct Row {
    // How many positions it has.
    pub(crate) width: usize,
    // How many of them have a value so far.
    pub(crate) place: usize,
    pub(crate) scales: Scales,
    // The cost of stock at the next position.
    pub(crate) walk: Walk,
    // The positions above the next one.
    pub(crate) reach: Reach,
}

// The position of a place.
pub(crate) fn position_at(cap: i64, place: usize) -> i64
    requires cap { unsigned_abs cap ≤ 1000000 }
    requires place { place ≤ 20000 }
    ensures { result ≡ cap -ℤ pos place }
{
    cap - place as i64
}

// The place of a position.
pub(crate) fn place_at(cap: i64, at: i64) -> usize
    requires cap { unsigned_abs cap ≤ 1000000 }
    requires below { at ≤ℤ cap }
    requires near { (cap -ℤ pos 20000) ≤ℤ at }
    ensures { cap -ℤ pos result ≡ at }
{
    (cap - at) as usize
}

// How many positions the grid of a period has.
fn row_width(finite: &Finite, period: u32) -> usize
    requires valid { IsValidFinite finite.now }
    requires from_one { 1 ≤ period }
    requires within { period ≤ finite.now.periods }
    ensures { result ≡ row_width finite.now period }
{
    (finite.cap - finite.low(period) + 1) as usize
}

// No row yet. The walk stands for nothing.
pub(crate) fn no_row(finite: &Finite, positions: usize) -> Row
    requires valid { IsValidFinite finite.now }
    requires positions { positions ≡ finite_positions finite.now }
    ensures { result.place ≡ 0 }
{
    Row {
        width: 0,
        place: 0,
        scales: Scales {
            stock: 0,
            setup: 0,
            unit: 0,
        },
        walk: Walk::new(&[1], 0, 0, 0),
        reach: Reach::new(finite.most, positions),
    }
}

// The last of some rows, where none of its positions has a value yet. The weights are those of the lead time's law.
pub(crate) fn begun_row(finite: &Finite, rows: u32, positions: usize, weights: &[u128]) -> Row
    requires valid { IsValidFinite finite.now }
    requires some { 1 ≤ rows }
    requires within { rows ≤ finite.now.periods }
    requires positions { positions ≡ finite_positions finite.now }
    requires weights { weights.now ≡ lead_law finite.now (row_period finite.now rows) }
    ensures width { result.width ≡ row_width finite.now (row_period finite.now rows) }
    ensures place { result.place ≡ 0 }
    ensures scales { AreScales finite.now (rows - 1) result.scales }
    ensures walk { IsWalkOf result.walk finite.now.holding finite.now.stockout (lead_law finite.now (row_period finite.now rows)) }
    ensures stands { place_of result.walk ≡ finite.now.cap }
    ensures room { reach_room result.reach ≡ capacity_cells finite.now.most (finite_positions finite.now) }
    ensures reach { (room : List ℤ) → length room ≡ capacity_cells finite.now.most (finite_positions finite.now) →
        IsReachOf finite.now.most (finite_positions finite.now) result.reach room [] }
{
    Row {
        width: row_width(finite, finite.periods + 1 - rows),
        place: 0,
        scales: scales_of(finite, rows),
        walk: Walk::new(weights, finite.holding, finite.stockout, finite.cap),
        reach: Reach::new(finite.most, positions),
    }
}

// Begins the row of the period before.
pub(crate) fn next_row(
    finite: &Finite,
    positions: usize,
    rows: &mut u32,
    laws: &mut HeldLaws,
    row: &mut Row,
    sums: &mut [u128],
)
    requires valid { IsValidFinite finite.now }
    requires positions { positions ≡ finite_positions finite.now }
    requires left { rows.old < finite.now.periods }
    requires room { length sums.old ≡ sums_needed finite.now }
    requires held { 1 ≤ rows.old → HoldsLaws finite.now (row_period finite.now rows.old) laws.old sums.old }
    ensures rows { rows.new ≡ rows.old + 1 }
    ensures same { length sums.new ≡ length sums.old }
    ensures holds { HoldsLaws finite.now (row_period finite.now rows.new) laws.new sums.new }
    ensures width { row.new.width ≡ row_width finite.now (row_period finite.now rows.new) }
    ensures place { row.new.place ≡ 0 }
    ensures scales { AreScales finite.now (rows.new - 1) row.new.scales }
    ensures walk { IsWalkOf row.new.walk finite.now.holding finite.now.stockout (lead_law finite.now (row_period finite.now rows.new)) }
    ensures stands { place_of row.new.walk ≡ finite.now.cap }
    ensures cells { reach_room row.new.reach ≡ capacity_cells finite.now.most (finite_positions finite.now) }
    ensures reach { (room : List ℤ) → length room ≡ capacity_cells finite.now.most (finite_positions finite.now) →
        IsReachOf finite.now.most (finite_positions finite.now) row.new.reach room [] }
{
    renew_laws(finite, finite.periods - *rows, *rows != 0, laws, sums);
    *rows += 1;
    *row = begun_row(finite, *rows, positions, &sums[..laws.lead]);
}

// What a position keeps.
#[derive(Clone, Copy, Debug)]
pub(crate) struct Kept {
    pub(crate) at: i64,
    // The cost of staying there.
    pub(crate) stay: i128,
    pub(crate) value: i128,
}

// Keeps a value and the cost of staying for the next place of a row, and goes on to the place below.
pub(crate) fn keep_place(
    row: &mut Row,
    values: &mut [i128],
    costs: &mut [i128],
    room: &mut [i128],
    kept: &Kept,
)
    requires values { row.old.place < length values.old }
    requires costs { row.old.place < length costs.old }
    requires few { length values.old ≤ 20000 }
    requires few_costs { length costs.old ≤ 20000 }
    requires room { length room.old ≡ reach_room row.old.reach }
    requires stay_least { pos 0 ≤ℤ kept.now.stay }
    requires stay_most { kept.now.stay ≤ℤ pos (2 ^ 120) }
    requires least { (pos 0 -ℤ pos (2 ^ 120)) ≤ℤ (row.old.scales.unit *ℤ kept.now.at) }
    requires most { (row.old.scales.unit *ℤ kept.now.at) ≤ℤ pos (2 ^ 120) }
    ensures values { values.new ≡ slice_set values.old row.old.place kept.now.value }
    ensures costs { costs.new ≡ slice_set costs.old row.old.place kept.now.stay }
    ensures room { length room.new ≡ length room.old }
    ensures cells { reach_room row.new.reach ≡ reach_room row.old.reach }
    ensures width { row.new.width ≡ row.old.width }
    ensures place { row.new.place ≡ row.old.place + 1 }
    ensures scales { row.new.scales ≡ row.old.scales }
    ensures walk { row.new.walk ≡ row.old.walk }
    ensures reach { (most : Option ℕ) (positions : ℕ) (pairs : List (ℤ × ℤ)) → IsReachOf most positions row.old.reach room.old pairs →
        IsReachOf most positions row.new.reach room.new (pairs ++ (kept.now.at, kept.now.stay +ℤ row.old.scales.unit *ℤ kept.now.at) ∷ []) }
{
    values[row.place] = kept.value;
    costs[row.place] = kept.stay;
    let cost = cost_with_units(kept.stay, row.scales.unit, kept.at);
    row.reach.push(room, kept.at, cost);
    row.place += 1;
}

// Goes on to the cost of stock at the next place, if the row has one. The sums, which hold the law of the lead time,
// stay as they are.
pub(crate) fn step_walk(row: &mut Row, lead: usize, sums: &mut [u128])
    requires lead { lead ≤ length sums.old }
    requires weights { AreWeights (take lead sums.old) }
    requires stands { IsWalk row.old.walk (take lead sums.old) }
    requires room { HasRoom (over_of row.old.walk) (under_of row.old.walk) (take lead sums.old) (place_of row.old.walk) }
    requires next { row.old.place < row.old.width →
        HasRoom (over_of row.old.walk) (under_of row.old.walk) (take lead sums.old) (place_of row.old.walk -ℤ pos 1) }
    ensures same { sums.new ≡ sums.old }
    ensures width { row.new.width ≡ row.old.width }
    ensures place { row.new.place ≡ row.old.place }
    ensures scales { row.new.scales ≡ row.old.scales }
    ensures reach { row.new.reach ≡ row.old.reach }
    ensures walk { (over under : ℕ) → IsWalkOf row.old.walk over under (take lead sums.old) → IsWalkOf row.new.walk over under (take lead sums.old) }
    ensures stands { row.old.place < row.old.width → place_of row.new.walk ≡ place_of row.old.walk -ℤ pos 1 }
{
    if row.place < row.width {
        row.walk.down(&sums[..lead]);
    }
}
