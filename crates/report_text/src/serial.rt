// The lines of serial systems.
ghost use Rattle.std.specs.Prelude.{◌≡◌, ◌+◌, ◌++◌, OnOk, codes, length};
ghost use Rattle.std.specs.List.{flat_map, range_with_len};
ghost use Rattle.decision_model.specs.Serial.{IsValidSerial};
ghost use Rattle.decision_model.specs.declared.serial.Serial.{Serial};
ghost use Rattle.value_cert.specs.SerialRules.{serial_levels, HasEachPeriod};
ghost use Rattle.value_cert.specs.declared.serial.SerialCert.{SerialCert};
ghost use Rattle.report_text.specs.Demand.{demand_text_of};
ghost use Rattle.report_text.specs.Serial.{level_line, levels_text, period_lines, periods_lines, levels_lines};

use crate::periods::push_periods;
use crate::pieces::push_number;
use decision_model::{Instance, Serial};
use fraction128::{Memory, Text};
use std::alloc::Global;
use value_cert::{SerialCert, SerialPeriod, SerialRow};

// Appends the line of an echelon's level.
fn push_level(out: &mut Text, period: u32, row: &SerialRow) -> Result<(), Memory>
    ensures { OnOk result (out.new ≡ out.old ++ level_line period row.now) }
{
    out.push(b"period ")?;
    push_number(out, period)?;
    out.push(b" echelon ")?;
    push_number(out, row.echelon)?;
    out.push(b" S ")?;
    push_number(out, row.level)?;
    out.push(b"\n")
}

// Appends the lines of a period's echelons, from the first.
fn push_rows(out: &mut Text, period: u32, rows: &[SerialRow]) -> Result<(), Memory>
    ensures { OnOk result (out.new ≡ out.old ++ flat_map (level_line period) rows.now) }
{
    for row in rows {
        push_level(out, period, row)?;
    }
    Ok(())
}

// Appends the lines of a period.
fn push_period(out: &mut Text, period: &SerialPeriod) -> Result<(), Memory>
    ensures { OnOk result (out.new ≡ out.old ++ period_lines period.now) }
{
    push_rows(out, period.period, period.rows.as_slice())
}

// Appends the lines of all periods, from the first to the last.
fn push_levels(out: &mut Text, periods: &[SerialPeriod]) -> Result<(), Memory>
    ensures { OnOk result (out.new ≡ out.old ++ periods_lines periods.now) }
{
    for place in (0..periods.len()).rev() {
        push_period(out, &periods[place])?;
    }
    Ok(())
}

// Appends the levels of each period.
pub fn push_policy(out: &mut Text, cert: &SerialCert) -> Result<(), Memory>
    ensures { OnOk result (out.new ≡ out.old ++ levels_lines cert.now.periods) }
{
    out.push(b"kind serial\n")?;
    push_levels(out, cert.periods.as_slice())
}

// Appends the law of each period.
pub fn push_demand(alloc: Global, out: &mut Text, serial: &Serial) -> Result<(), Memory>
    requires { IsValidSerial serial.now }
    ensures { OnOk result (out.new ≡ out.old ++ demand_text_of (Instance.Serial serial.now)) }
{
    push_periods(alloc, out, serial.laws.as_slice(), serial.periods, 1)
}

/// The lines of a certificate that has each period are those of the levels of the periods, from 1 up.
pub fn levels_go_by_periods()
    ensures { (serial : Serial) (c : SerialCert) → HasEachPeriod serial c
        → levels_lines c.periods ≡ codes "kind serial\n" ++ flat_map (λ place. levels_text (place + 1) (length serial.holding) (serial_levels c (place + 1))) (range_with_len 0 serial.periods) }
{}
