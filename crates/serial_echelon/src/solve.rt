// The solver.
ghost use Rattle.std.specs.Prelude.{◌≡◌, ◌+◌, ◌-◌, ◌<◌, ◌≤◌, length, true, IfOk, OnOk};
ghost use Rattle.decision_model.specs.Serial.{IsValidSerial};
ghost use Rattle.decision_model.specs.declared.instance.Instance.TheVariants as instance;
ghost use Rattle.serial_echelon.specs.Solving.{HasSolved, cell_at};
ghost use Rattle.serial_recursion.specs.Periods.{is_left, is_ready, is_whole};
ghost use Rattle.serial_recursion.specs.Recursions.{serial_of, periods_of, echelons_of, cells_of};
ghost use Rattle.serial_recursion.specs.Rows.{period_of};
ghost use Rattle.value_cert.specs.Kept.{BreaksNoRule};
ghost use Rattle.value_cert.specs.SerialRules.{IsLeastPolicy, solved_row, solved_period, solved_serial};
ghost use Rattle.value_cert.specs.SerialValues.{row_width};
ghost use Rattle.value_cert.specs.Texts.{HasText};
ghost use Rattle.value_cert.specs.declared.cert.Cert.TheVariants as cert;

use decision_model::{Items, Serial};
use fraction128::Memory;
use serial_recursion::{Recursion, cells_of};
use std::alloc::{AllocError, Global};
use value_cert::{SerialCell, SerialCert, SerialPeriod, SerialRow};

// The next position of the last echelon, with its value.
fn solve_position(recursion: &mut Recursion<'_>) -> SerialCell
    requires valid { IsValidSerial (serial_of recursion.old) }
    requires begun { 1 ≤ periods_of recursion.old }
    requires within { echelons_of recursion.old ≤ length (serial_of recursion.old).holding }
    requires left { is_left (serial_of recursion.old) (periods_of recursion.old) (echelons_of recursion.old) (cells_of recursion.old) ≡ true }
    ensures serial { serial_of recursion.new ≡ serial_of recursion.old }
    ensures periods { periods_of recursion.new ≡ periods_of recursion.old }
    ensures echelons { echelons_of recursion.new ≡ echelons_of recursion.old }
    ensures cells { cells_of recursion.new ≡ cells_of recursion.old + 1 }
    ensures cell { HasSolved recursion.old → result ≡ cell_at (serial_of recursion.old) (periods_of recursion.old) (echelons_of recursion.old) (cells_of recursion.old) }
    ensures solved { HasSolved recursion.old → HasSolved recursion.new }
{
    let at = recursion.position();
    let value = recursion.find();
    recursion.keep();
    SerialCell { at, value }
}

// The cells of the last echelon, which has none yet.
fn solve_cells(alloc: Global, recursion: &mut Recursion<'_>) -> Result<Vec<SerialCell>, AllocError>
    requires valid { IsValidSerial (serial_of recursion.old) }
    requires begun { 1 ≤ periods_of recursion.old }
    requires some { 1 ≤ echelons_of recursion.old }
    requires within { echelons_of recursion.old ≤ length (serial_of recursion.old).holding }
    requires none { cells_of recursion.old ≡ 0 }
    ensures serial { serial_of recursion.new ≡ serial_of recursion.old }
    ensures periods { periods_of recursion.new ≡ periods_of recursion.old }
    ensures echelons { echelons_of recursion.new ≡ echelons_of recursion.old }
    ensures all { OnOk result (cells_of recursion.new ≡ row_width (serial_of recursion.old) (period_of (serial_of recursion.old) (periods_of recursion.old))) }
    ensures cells { HasSolved recursion.old → IfOk result (λ cells. cells.items ≡
        (solved_row (serial_of recursion.old) (periods_of recursion.old - 1) (period_of (serial_of recursion.old) (periods_of recursion.old)) (echelons_of recursion.old - 1)).cells) }
    ensures solved { HasSolved recursion.old → OnOk result (HasSolved recursion.new) }
{
    let width = recursion.row_width();
    let mut cells = Vec::with_capacity(alloc, width)?;
    for _ in 0..width {
        cells.push(solve_position(recursion))?;
    }
    Ok(cells)
}

// The next echelon of the last period.
fn solve_echelon(alloc: Global, recursion: &mut Recursion<'_>) -> Result<SerialRow, AllocError>
    requires valid { IsValidSerial (serial_of recursion.old) }
    requires ready { is_ready (serial_of recursion.old) (periods_of recursion.old) (echelons_of recursion.old) (cells_of recursion.old) ≡ true }
    ensures serial { serial_of recursion.new ≡ serial_of recursion.old }
    ensures periods { periods_of recursion.new ≡ periods_of recursion.old }
    ensures echelons { echelons_of recursion.new ≡ echelons_of recursion.old + 1 }
    ensures all { OnOk result (cells_of recursion.new ≡ row_width (serial_of recursion.old) (period_of (serial_of recursion.old) (periods_of recursion.old))) }
    ensures row { HasSolved recursion.old → IfOk result (λ row. row ≡
        solved_row (serial_of recursion.old) (periods_of recursion.old - 1) (period_of (serial_of recursion.old) (periods_of recursion.old)) (echelons_of recursion.old)) }
    ensures solved { HasSolved recursion.old → OnOk result (HasSolved recursion.new) }
{
    let echelon = recursion.echelons() as u32 + 1;
    let level = recursion.begin_least_echelon();
    let cells = solve_cells(alloc, recursion)?;
    Ok(SerialRow {
        echelon,
        level,
        cells: Items::new(cells),
    })
}

// The echelons of the last period, which has none yet.
fn solve_echelons(
    alloc: Global,
    recursion: &mut Recursion<'_>,
) -> Result<Vec<SerialRow>, AllocError>
    requires valid { IsValidSerial (serial_of recursion.old) }
    requires begun { 1 ≤ periods_of recursion.old }
    requires none { echelons_of recursion.old ≡ 0 }
    ensures serial { serial_of recursion.new ≡ serial_of recursion.old }
    ensures periods { periods_of recursion.new ≡ periods_of recursion.old }
    ensures whole { OnOk result (is_whole (serial_of recursion.new) (periods_of recursion.new) (echelons_of recursion.new) (cells_of recursion.new) ≡ true) }
    ensures rows { HasSolved recursion.old → IfOk result (λ rows. rows.items ≡
        (solved_period (serial_of recursion.old) (periods_of recursion.old - 1) (period_of (serial_of recursion.old) (periods_of recursion.old))).rows) }
    ensures solved { HasSolved recursion.old → OnOk result (HasSolved recursion.new) }
{
    let count = recursion.serial().holding.as_slice().len();
    let mut rows = Vec::with_capacity(alloc, count)?;
    for _ in 0..count {
        rows.push(solve_echelon(alloc, recursion)?)?;
    }
    Ok(rows)
}

// The period before the last one.
fn solve_period(alloc: Global, recursion: &mut Recursion<'_>) -> Result<SerialPeriod, AllocError>
    requires valid { IsValidSerial (serial_of recursion.old) }
    requires whole { is_whole (serial_of recursion.old) (periods_of recursion.old) (echelons_of recursion.old) (cells_of recursion.old) ≡ true }
    requires left { periods_of recursion.old < (serial_of recursion.old).periods }
    ensures serial { serial_of recursion.new ≡ serial_of recursion.old }
    ensures periods { periods_of recursion.new ≡ periods_of recursion.old + 1 }
    ensures whole { OnOk result (is_whole (serial_of recursion.new) (periods_of recursion.new) (echelons_of recursion.new) (cells_of recursion.new) ≡ true) }
    ensures period { HasSolved recursion.old → IfOk result (λ period. period ≡
        solved_period (serial_of recursion.old) (periods_of recursion.old) ((serial_of recursion.old).periods - periods_of recursion.old)) }
    ensures solved { HasSolved recursion.old → OnOk result (HasSolved recursion.new) }
{
    let period = recursion.serial().periods - recursion.periods();
    recursion.begin_period();
    let rows = solve_echelons(alloc, recursion)?;
    Ok(SerialPeriod {
        period,
        rows: Items::new(rows),
    })
}

// All periods, from the last to the first.
fn solve_periods(alloc: Global, serial: &Serial) -> Result<Vec<SerialPeriod>, AllocError>
    requires { IsValidSerial serial.now }
    ensures { IfOk result (λ periods. periods.items ≡ (solved_serial serial.now).periods) }
{
    let mut cells = vec![in alloc; 0i128; cells_of(serial)]?;
    let mut recursion = Recursion::new(serial, &mut cells);
    let mut periods = Vec::with_capacity(alloc, serial.periods as usize)?;
    for _ in 0..serial.periods {
        periods.push(solve_period(alloc, &mut recursion)?)?;
    }
    Ok(periods)
}

/// What costs least in a serial system after Clark and Scarf (1960): for each period, from the last to the first, and each
/// echelon, from the first on, the least level at which its cost of orders is least, and the echelon's part of the cost at
/// each echelon stock of the period's grid, from the low end up. Each echelon orders up to its level, as far as the next one
/// has it. `Memory` is its only refusal.
///
/// An echelon of a period takes, for each position, one multiplication for each demand of positive weight and a few further
/// steps; no joint state is looked at. It keeps the certificate and two more rows over the grid than there are echelons. No
/// number passes the instance's width number, which is at most 2^120.
pub fn solve_serial(alloc: Global, serial: &Serial) -> Result<SerialCert, Memory>
    requires { IsValidSerial serial.now }
    ensures exact { IfOk result (λ c. c ≡ solved_serial serial.now) }
    ensures least { IfOk result (IsLeastPolicy serial.now) }
    ensures accepted { IfOk result (λ c. BreaksNoRule (instance.Serial serial.now) (cert.Serial c)) }
    ensures text { IfOk result (λ c. HasText (cert.Serial c)) }
{
    match solve_periods(alloc, serial) {
        Ok(periods) => Ok(SerialCert {
            discount_num: serial.discount_num,
            discount_den: serial.discount_den,
            periods: Items::new(periods),
        }),
        Err(_) => Err(Memory),
    }
}
