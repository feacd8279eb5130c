// The solver.
ghost use Rattle.std.specs.Prelude.{◌≡◌, ℕ, suc, ◌+◌, ◌-◌, ◌<◌, ◌≤◌, false, true, IfOk, OnOk};
ghost use Rattle.decision_model.specs.Finite.{IsValidFinite};
ghost use Rattle.decision_model.specs.declared.instance.Instance.TheVariants as instance;
ghost use Rattle.finite_lemmas.specs.SolvedFronts.{cell_at_place};
ghost use Rattle.finite_recursion.specs.Recursions.{finite_of, rows_of, place_of, is_whole};
ghost use Rattle.finite_ss.specs.Solving.{HasFront, HasSolved};
ghost use Rattle.value_cert.specs.FiniteRules.{IsLeastPolicy, solved_row, solved_finite};
ghost use Rattle.value_cert.specs.Kept.{BreaksNoRule};
ghost use Rattle.value_cert.specs.Texts.{HasText};
ghost use Rattle.value_cert.specs.declared.cert.Cert.TheVariants as cert;

use decision_model::{Finite, Items};
use finite_recursion::{Found, Recursion, cells_of, sums_of};
use fraction128::Memory;
use std::alloc::{AllocError, Global};
use value_cert::{FiniteCell, FiniteCert, FiniteRow};

// The cell of a position, with what was found there.
fn cell_of(at: i64, found: &Found) -> FiniteCell
    ensures at { result.at ≡ at }
    ensures to { result.to ≡ found.now.to }
    ensures value { result.value ≡ found.now.value }
{
    FiniteCell {
        at,
        to: found.to,
        value: found.value,
    }
}

// The next position of the row, with the first position of least value and that value.
fn solve_position(recursion: &mut Recursion<'_>) -> FiniteCell
    requires valid { IsValidFinite (finite_of recursion.old) }
    requires left { is_whole recursion.old ≡ false }
    ensures finite { finite_of recursion.new ≡ finite_of recursion.old }
    ensures rows { rows_of recursion.new ≡ rows_of recursion.old }
    ensures place { place_of recursion.new ≡ place_of recursion.old + 1 }
    ensures cell { (n count : ℕ) → n < (finite_of recursion.old).periods → HasFront recursion.old n count → result ≡ cell_at_place (finite_of recursion.old) n count }
    ensures front { (n count : ℕ) → n < (finite_of recursion.old).periods → HasFront recursion.old n count → HasFront recursion.new n (count + 1) }
{
    let at = recursion.position();
    let found = recursion.find();
    recursion.keep(&found, found.value);
    cell_of(at, &found)
}

// The row that the recursion has begun.
fn solve_row(alloc: Global, recursion: &mut Recursion<'_>) -> Result<Vec<FiniteCell>, AllocError>
    requires valid { IsValidFinite (finite_of recursion.old) }
    requires begun { 1 ≤ rows_of recursion.old }
    requires none { place_of recursion.old ≡ 0 }
    ensures finite { finite_of recursion.new ≡ finite_of recursion.old }
    ensures rows { rows_of recursion.new ≡ rows_of recursion.old }
    ensures whole { OnOk result (is_whole recursion.new ≡ true) }
    ensures cells { (n : ℕ) → n < (finite_of recursion.old).periods → HasFront recursion.old n 0 →
        IfOk result (λ cells. cells.items ≡ (solved_row (finite_of recursion.old) n ((finite_of recursion.old).periods - n)).cells) }
    ensures solved { (n : ℕ) → n < (finite_of recursion.old).periods → HasFront recursion.old n 0 → OnOk result (HasSolved recursion.new (suc n)) }
{
    let width = recursion.row_width();
    let mut cells = Vec::with_capacity(alloc, width)?;
    for _ in 0..width {
        cells.push(solve_position(recursion))?;
    }
    Ok(cells)
}

// The row of the period before.
fn solve_period(alloc: Global, recursion: &mut Recursion<'_>) -> Result<FiniteRow, AllocError>
    requires valid { IsValidFinite (finite_of recursion.old) }
    requires whole { is_whole recursion.old ≡ true }
    requires left { rows_of recursion.old < (finite_of recursion.old).periods }
    ensures finite { finite_of recursion.new ≡ finite_of recursion.old }
    ensures rows { rows_of recursion.new ≡ rows_of recursion.old + 1 }
    ensures whole { OnOk result (is_whole recursion.new ≡ true) }
    ensures row { HasSolved recursion.old (rows_of recursion.old) → IfOk result (λ row. row ≡ solved_row (finite_of recursion.old) (rows_of recursion.old) ((finite_of recursion.old).periods - rows_of recursion.old)) }
    ensures solved { HasSolved recursion.old (rows_of recursion.old) → OnOk result (HasSolved recursion.new (rows_of recursion.new)) }
{
    let period = recursion.finite().periods - recursion.rows();
    recursion.begin_row();
    let cells = solve_row(alloc, recursion)?;
    Ok(FiniteRow {
        period,
        cells: Items::new(cells),
    })
}

// The rows of all periods, from the last to the first.
fn solve_rows(alloc: Global, finite: &Finite) -> Result<Vec<FiniteRow>, AllocError>
    requires { IsValidFinite finite.now }
    ensures { IfOk result (λ rows. rows.items ≡ (solved_finite finite.now).rows) }
{
    let mut cells = vec![in alloc; 0i128; cells_of(finite)]?;
    let mut sums = vec![in alloc; 0u128; sums_of(finite)]?;
    let mut recursion = Recursion::new(finite, &mut cells, &mut sums);
    let mut rows = Vec::with_capacity(alloc, finite.periods as usize)?;
    for _ in 0..finite.periods {
        rows.push(solve_period(alloc, &mut recursion)?)?;
    }
    Ok(rows)
}

/// What costs least over a finite horizon: for each period, from the last to the first, and each position, from the cap
/// down, the first position of least value that an order may lead to, and that value, by backward recursion after Scarf
/// (1960). A position that costs no more than any order stays. `Memory` is its only refusal.
///
/// A period takes, for each position, one multiplication for each demand of positive weight and a few further steps. It
/// keeps the certificate, two rows over the grid and, where orders have a greatest size, two numbers for each position
/// that such an order passes. No number passes the instance's width number, which is at most 2^120.
pub fn solve_finite(alloc: Global, finite: &Finite) -> Result<FiniteCert, Memory>
    requires { IsValidFinite finite.now }
    ensures exact { IfOk result (λ c. c ≡ solved_finite finite.now) }
    ensures least { IfOk result (IsLeastPolicy finite.now) }
    ensures accepted { IfOk result (λ c. BreaksNoRule (instance.Finite finite.now) (cert.Finite c)) }
    ensures text { IfOk result (λ c. HasText (cert.Finite c)) }
{
    match solve_rows(alloc, finite) {
        Ok(rows) => Ok(FiniteCert {
            discount_num: finite.discount_num,
            discount_den: finite.discount_den,
            rows: Items::new(rows),
        }),
        Err(_) => Err(Memory),
    }
}
