// Certificates of finite horizons.
ghost use Rattle.std.specs.Prelude.{◌≡◌, ◌+◌, ◌*◌, ◌^◌, ◌<◌, ◌≤◌, [], ◌∷◌, IsTrue};
ghost use Rattle.std.specs.List.{list_all};
ghost use Rattle.fraction128.specs.Reduced.{lowest_num, lowest_den};
ghost use Rattle.decision_model.specs.Finite.{IsValidFinite};
ghost use Rattle.value_cert.specs.FiniteRules.{cells_of, cell_value, start_value};
ghost use Rattle.value_cert.specs.FiniteValues.{scale};
ghost use Rattle.value_cert.specs.Finite.{finite_follows, finite_table, value_line, row_lines};
ghost use Rattle.value_cert.specs.Grammar.{has_numbers};
ghost use Rattle.value_cert.specs.Texts.{cert_lines};
ghost use Rattle.value_cert.specs.Writes.{output, Writes};
ghost use Rattle.value_cert.specs.declared.cert.Cert.{Cert};

use crate::line::{CertLine, Tag, head_line, period_line};
use crate::numbers::is_discount_fraction;
use crate::part::{Part, write_each, write_to_end};
use crate::piece::{Piece, write_line};
use decision_model::{Finite, Items, Kind};
use fraction128::{Frac, power};
use stock_edge::{Failed, Sink};

/// A position, the position to order up to there, and the cost from there on.
#[derive(Clone, Copy, Debug, PartialEq, Eq)]
pub struct FiniteCell {
    pub at: i64,
    pub to: i64,
    pub value: i128,
}

/// The positions of a period, from the highest down.
pub type FiniteCells = Items<FiniteCell>;

/// The positions of one period.
#[derive(Drop)]
pub struct FiniteRow {
    /// The period, from 1.
    pub period: u32,
    pub cells: FiniteCells,
}

/// The periods, from the last to the first.
pub type FiniteRows = Items<FiniteRow>;

/// A finite horizon: what to order at each position of each period, and the cost from there on.
#[derive(Drop)]
pub struct FiniteCert {
    /// The factor on the cost of each later period is `discount_num / discount_den`.
    pub discount_num: u32,
    pub discount_den: u32,
    /// The periods from the last to the first.
    pub rows: FiniteRows,
}

pub(crate) fn may_have_discount(num: i128, den: i128) -> bool
    ensures { result ≡ finite_table.discount num den }
{
    is_discount_fraction(num, den)
}

pub(crate) fn follows(last: Tag, next: Tag) -> bool
    ensures { result ≡ finite_follows last next }
{
    matches!(
        (last, next),
        (Tag::Head, Tag::Period)
            | (Tag::Period, Tag::Value)
            | (Tag::Value, Tag::Value | Tag::Period | Tag::End)
    )
}

fn value_line(cell: &FiniteCell) -> CertLine
    ensures { result ≡ value_line cell.now }
{
    CertLine::Value(i128::from(cell.at), i128::from(cell.to), cell.value)
}

impl Part for FiniteCell {
    ghost lines = { λ cell. value_line cell ∷ [] };

    fn write<K: Sink>(&self, piece: &mut Piece, sink: &mut K) -> Result<(), Failed> {
        let line = value_line(self);
        write_line(&line, piece, sink)
    }
}

impl Part for FiniteRow {
    ghost lines = { row_lines };

    fn write<K: Sink>(&self, piece: &mut Piece, sink: &mut K) -> Result<(), Failed> {
        let line = period_line(self.period);
        write_line(&line, piece, sink)?;
        write_each(self.cells.as_slice(), piece, sink)
    }
}

pub(crate) fn write<K: Sink>(
    cert: &FiniteCert,
    piece: &mut Piece,
    sink: &mut K,
) -> Result<(), Failed>
    requires { IsTrue (list_all has_numbers (cert_lines (Cert.Finite cert.now))) }
    ensures { Writes (output (K.written sink.old) (K.faults sink.old) piece.old.items)
        (output (K.written sink.new) (K.faults sink.new) piece.new.items) result (cert_lines (Cert.Finite cert.now)) }
{
    let head = head_line(Kind::Finite, cert.discount_num, cert.discount_den);
    write_line(&head, piece, sink)?;
    write_to_end(cert.rows.as_slice(), piece, sink)
}

/// What the values of a finite horizon are over, where so many periods are left: the discount's denominator once a
/// period, and the common sum of weights once a period and once more a period of the lead time.
#[tactic(auto, using(decision_model::specs::WidthFacts::finite_scale_fits), unfolding(crate::specs::FiniteValues::scale))]
pub fn scale_of(finite: &Finite, left: u32) -> u128
    requires valid { IsValidFinite finite.now }
    requires left { left ≤ finite.now.periods }
    ensures scale { result ≡ scale finite.now left }
    ensures some { 1 ≤ result }
    ensures small { result ≤ 2 ^ 120 }
{
    let discounts = power(u128::from(finite.discount_den), left);
    let weights = power(finite.laws.total(), left + finite.lead);
    discounts * weights
}

// The value of a position in a row; 0 where it has no cell.
fn value_at(cells: &[FiniteCell], position: i64) -> i128
    ensures { result ≡ cell_value cells.now position }
{
    for cell in cells {
        if cell.at == position {
            return cell.value;
        }
    }
    0
}

// The value of the start in the first period.
fn start_value(rows: &[FiniteRow], start: i64) -> i128
    ensures { result ≡ cell_value (cells_of rows.now 1) start }
{
    for row in rows {
        if row.period == 1 {
            return value_at(row.cells.as_slice(), start);
        }
    }
    0
}

/// The cost of a certificate's policy: the value of the start over the scale of all periods.
pub(crate) fn policy_cost(finite: &Finite, cert: &FiniteCert) -> Frac
    requires { IsValidFinite finite.now }
    ensures num { result.num ≡ lowest_num (start_value finite.now cert.now) (scale finite.now finite.now.periods) }
    ensures den { result.den ≡ lowest_den (start_value finite.now cert.now) (scale finite.now finite.now.periods) }
{
    let value = start_value(cert.rows.as_slice(), finite.start);
    Frac::new(value, scale_of(finite, finite.periods))
}
