// Certificates of serial systems.
ghost use Rattle.std.specs.Prelude.{◌≡◌, ◌-◌, ◌^◌, ◌+ℤ◌, ◌<◌, ◌≤◌, [], ◌∷◌, length, slice_index_or, pos, unsigned_abs, ℕ, ℤ, IsTrue};
ghost use Rattle.std.specs.List.{list_all};
ghost use Rattle.fraction128.specs.Reduced.{lowest_num, lowest_den};
ghost use Rattle.decision_model.specs.Serial.{IsValidSerial};
ghost use Rattle.decision_model.specs.SerialProblem.{over_echelons};
ghost use Rattle.value_cert.specs.Grammar.{has_numbers};
ghost use Rattle.value_cert.specs.SerialRules.{rows_of, row_cells, cell_value, start_value};
ghost use Rattle.value_cert.specs.SerialValues.{scale};
ghost use Rattle.value_cert.specs.Serial.{serial_follows, serial_table, part_line, echelon_lines, period_lines};
ghost use Rattle.value_cert.specs.Texts.{cert_lines};
ghost use Rattle.value_cert.specs.Writes.{output, Writes};
ghost use Rattle.value_cert.specs.declared.cert.Cert.{Cert};

use crate::line::{CertLine, Tag, head_line, period_line};
use crate::numbers::is_discount_fraction;
use crate::part::{Part, write_each, write_to_end};
use crate::piece::{Piece, write_line};
use decision_model::{Items, Kind, Serial};
use fraction128::{Frac, power};
use stock_edge::{Failed, Sink};

/// An echelon stock, and the echelon's part of the cost from there on.
#[derive(Clone, Copy, Debug, PartialEq, Eq)]
pub struct SerialCell {
    pub at: i64,
    pub value: i128,
}

/// The echelon stocks, from the lowest up.
pub type SerialCells = Items<SerialCell>;

/// The level of one echelon in one period, and the echelon's part of the cost at each echelon stock, from the lowest up.
#[derive(Drop)]
pub struct SerialRow {
    /// The echelon, from 1.
    pub echelon: u32,
    pub level: i64,
    pub cells: SerialCells,
}

/// The echelons of a period, from the first.
pub type SerialRows = Items<SerialRow>;

/// The echelons of one period.
#[derive(Drop)]
pub struct SerialPeriod {
    /// The period, from 1.
    pub period: u32,
    /// The echelons from the first.
    pub rows: SerialRows,
}

/// The periods, from the last to the first.
pub type SerialPeriods = Items<SerialPeriod>;

/// A serial system: the levels of each period, and each echelon's part of the cost.
#[derive(Drop)]
pub struct SerialCert {
    /// The factor on the cost of each later period is `discount_num / discount_den`.
    pub discount_num: u32,
    pub discount_den: u32,
    /// The periods from the last to the first.
    pub periods: SerialPeriods,
}

pub(crate) fn may_have_discount(num: i128, den: i128) -> bool
    ensures { result ≡ serial_table.discount num den }
{
    is_discount_fraction(num, den)
}

pub(crate) fn follows(last: Tag, next: Tag) -> bool
    ensures { result ≡ serial_follows last next }
{
    matches!(
        (last, next),
        (Tag::Head, Tag::Period)
            | (Tag::Period, Tag::Echelon)
            | (Tag::Echelon, Tag::Part)
            | (Tag::Part, Tag::Part | Tag::Echelon | Tag::Period | Tag::End)
    )
}

fn part_line(cell: &SerialCell) -> CertLine
    ensures { result ≡ part_line cell.now }
{
    CertLine::Part(i128::from(cell.at), cell.value)
}

fn echelon_line(row: &SerialRow) -> CertLine
    ensures { result ≡ CertLine.Echelon (pos row.now.echelon) row.now.level }
{
    CertLine::Echelon(i128::from(row.echelon), i128::from(row.level))
}

impl Part for SerialCell {
    ghost lines = { λ cell. part_line cell ∷ [] };

    fn write<K: Sink>(&self, piece: &mut Piece, sink: &mut K) -> Result<(), Failed> {
        let line = part_line(self);
        write_line(&line, piece, sink)
    }
}

impl Part for SerialRow {
    ghost lines = { echelon_lines };

    fn write<K: Sink>(&self, piece: &mut Piece, sink: &mut K) -> Result<(), Failed> {
        let line = echelon_line(self);
        write_line(&line, piece, sink)?;
        write_each(self.cells.as_slice(), piece, sink)
    }
}

impl Part for SerialPeriod {
    ghost lines = { period_lines };

    fn write<K: Sink>(&self, piece: &mut Piece, sink: &mut K) -> Result<(), Failed> {
        let line = period_line(self.period);
        write_line(&line, piece, sink)?;
        write_each(self.rows.as_slice(), piece, sink)
    }
}

pub(crate) fn write<K: Sink>(
    cert: &SerialCert,
    piece: &mut Piece,
    sink: &mut K,
) -> Result<(), Failed>
    requires { IsTrue (list_all has_numbers (cert_lines (Cert.Serial cert.now))) }
    ensures { Writes (output (K.written sink.old) (K.faults sink.old) piece.old.items)
        (output (K.written sink.new) (K.faults sink.new) piece.new.items) result (cert_lines (Cert.Serial cert.now)) }
{
    let head = head_line(Kind::Serial, cert.discount_num, cert.discount_den);
    write_line(&head, piece, sink)?;
    write_to_end(cert.periods.as_slice(), piece, sink)
}

/// What the values of a serial system are over, where so many periods are left: the discount's denominator and the common
/// sum of weights, once a period.
#[tactic(auto, using(decision_model::specs::WidthFacts::serial_scale_fits), unfolding(crate::specs::SerialValues::scale))]
pub fn serial_scale_of(serial: &Serial, left: u32) -> u128
    requires valid { IsValidSerial serial.now }
    requires left { left ≤ serial.now.periods }
    ensures scale { result ≡ scale serial.now left }
    ensures some { 1 ≤ result }
    ensures small { result ≤ 2 ^ 120 }
{
    power(u128::from(serial.discount_den) * serial.laws.total(), left)
}

// The echelons of the first period; none where it has none.
fn first_rows(periods: &[SerialPeriod]) -> &[SerialRow]
    ensures { result.now ≡ rows_of periods.now 1 }
{
    for period in periods {
        if period.period == 1 {
            return period.rows.as_slice();
        }
    }
    &[]
}

// The cells of an echelon, which counts from 1; none where it has no row.
fn cells_of(rows: &[SerialRow], echelon: u32) -> &[SerialCell]
    requires { 1 ≤ echelon }
    ensures { result.now ≡ row_cells rows.now (echelon - 1) }
{
    for row in rows {
        if row.echelon == echelon {
            return row.cells.as_slice();
        }
    }
    &[]
}

// The value of an echelon stock; 0 where it has no cell.
fn value_at(cells: &[SerialCell], position: i64) -> i128
    ensures { result ≡ cell_value cells.now position }
{
    for cell in cells {
        if cell.at == position {
            return cell.value;
        }
    }
    0
}

// The value of the stock of an echelon, which counts from 0 here.
fn value_of_echelon(rows: &[SerialRow], stocks: &[i64], place: usize) -> i128
    requires few { length stocks.now ≤ 8 }
    requires inside { place < length stocks.now }
    ensures { result ≡ cell_value (row_cells rows.now place) (slice_index_or stocks.now place (pos 0)) }
{
    value_at(cells_of(rows, place as u32 + 1), stocks[place])
}

// One more value.
fn with_value(total: i128, value: i128) -> i128
    requires total { unsigned_abs total ≤ 2 ^ 124 }
    requires value { unsigned_abs value ≤ 2 ^ 120 }
    ensures { result ≡ total +ℤ value }
{
    total + value
}

// The echelons' values of their stocks, added up.
fn value_of_stocks(rows: &[SerialRow], stocks: &[i64]) -> i128
    requires few { length stocks.now ≤ 8 }
    requires small { (i : ℕ) (x : ℤ) → unsigned_abs (cell_value (row_cells rows.now i) x) ≤ 2 ^ 120 }
    ensures { result ≡ over_echelons (λ i x. cell_value (row_cells rows.now i) x) 0 stocks.now }
{
    let mut total = 0;
    for place in 0..stocks.len() {
        total = with_value(total, value_of_echelon(rows, stocks, place));
    }
    total
}

/// The cost of a certificate's policy: the echelons' values of the start over the scale of all periods.
pub(crate) fn policy_cost(serial: &Serial, cert: &SerialCert) -> Frac
    requires valid { IsValidSerial serial.now }
    requires numbers { IsTrue (list_all has_numbers (cert_lines (Cert.Serial cert.now))) }
    ensures num { result.num ≡ lowest_num (start_value serial.now cert.now) (scale serial.now serial.now.periods) }
    ensures den { result.den ≡ lowest_den (start_value serial.now cert.now) (scale serial.now serial.now.periods) }
{
    let rows = first_rows(cert.periods.as_slice());
    let value = value_of_stocks(rows, serial.start.as_slice());
    Frac::new(value, serial_scale_of(serial, serial.periods))
}
