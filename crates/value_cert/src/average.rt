// Certificates of average costs.
ghost use Rattle.std.specs.Prelude.{◌≡◌, ◌≤◌, [], ◌∷◌, pos, IsTrue};
ghost use Rattle.std.specs.List.{list_all};
ghost use Rattle.fraction128.specs.Reduced.{lowest_num, lowest_den};
ghost use Rattle.value_cert.specs.Average.{average_follows, average_table, point_line};
ghost use Rattle.value_cert.specs.Grammar.{has_numbers};
ghost use Rattle.value_cert.specs.Texts.{cert_lines};
ghost use Rattle.value_cert.specs.Writes.{output, Writes};
ghost use Rattle.value_cert.specs.declared.cert.Cert.{Cert};

use crate::line::{CertLine, Tag, head_line};
use crate::numbers::is_no_discount;
use crate::part::{Part, write_each, write_to_end};
use crate::piece::{Piece, write_line};
use decision_model::{Items, Kind};
use fraction128::Frac;
use stock_edge::{Failed, Sink};

/// A position, and its relative values from below and from above.
#[derive(Clone, Copy, Debug, PartialEq, Eq)]
pub struct AverageCell {
    pub at: i64,
    pub lower: u128,
    pub upper: u128,
}

/// The positions, from the lowest up.
pub type AverageCells = Items<AverageCell>;

/// An average cost `num / den`, a pair of positions, and the relative values of all positions from the floor up.
#[derive(Drop)]
pub struct AverageCert {
    pub num: u128,
    pub den: u128,
    /// The greatest position that orders.
    pub low: i64,
    /// The position that it orders up to.
    pub high: i64,
    pub cells: AverageCells,
}

pub(crate) fn may_have_discount(num: i128, den: i128) -> bool
    ensures { result ≡ average_table.discount num den }
{
    is_no_discount(num, den)
}

pub(crate) fn follows(last: Tag, next: Tag) -> bool
    ensures { result ≡ average_follows last next }
{
    matches!(
        (last, next),
        (Tag::Head, Tag::Gain)
            | (Tag::Gain, Tag::Pair)
            | (Tag::Pair, Tag::Point)
            | (Tag::Point, Tag::Point | Tag::End)
    )
}

fn gain_line(cert: &AverageCert) -> CertLine
    requires { IsTrue (has_numbers (CertLine.Gain (pos cert.now.num) (pos cert.now.den))) }
    ensures { result ≡ CertLine.Gain (pos cert.now.num) (pos cert.now.den) }
{
    CertLine::Gain(cert.num as i128, cert.den as i128)
}

fn pair_line(cert: &AverageCert) -> CertLine
    ensures { result ≡ CertLine.Pair cert.now.low cert.now.high }
{
    CertLine::Pair(i128::from(cert.low), i128::from(cert.high))
}

fn point_line(cell: &AverageCell) -> CertLine
    requires { IsTrue (has_numbers (point_line cell.now)) }
    ensures { result ≡ point_line cell.now }
{
    CertLine::Point(i128::from(cell.at), cell.lower as i128, cell.upper as i128)
}

impl Part for AverageCell {
    ghost lines = { λ cell. point_line cell ∷ [] };

    fn write<K: Sink>(&self, piece: &mut Piece, sink: &mut K) -> Result<(), Failed> {
        let line = point_line(self);
        write_line(&line, piece, sink)
    }
}

pub(crate) fn write<K: Sink>(
    cert: &AverageCert,
    piece: &mut Piece,
    sink: &mut K,
) -> Result<(), Failed>
    requires { IsTrue (list_all has_numbers (cert_lines (Cert.Average cert.now))) }
    ensures { Writes (output (K.written sink.old) (K.faults sink.old) piece.old.items)
        (output (K.written sink.new) (K.faults sink.new) piece.new.items) result (cert_lines (Cert.Average cert.now)) }
{
    let front = [
        head_line(Kind::Average, 1, 1),
        gain_line(cert),
        pair_line(cert),
    ];
    write_each(&front, piece, sink)?;
    write_to_end(cert.cells.as_slice(), piece, sink)
}

/// The average cost of a certificate.
pub(crate) fn average_cost(cert: &AverageCert) -> Frac
    requires some { 1 ≤ cert.now.den }
    requires numbers { IsTrue (list_all has_numbers (cert_lines (Cert.Average cert.now))) }
    ensures num { result.num ≡ lowest_num (pos cert.now.num) cert.now.den }
    ensures den { result.den ≡ lowest_den (pos cert.now.num) cert.now.den }
{
    Frac::new(cert.num as i128, cert.den)
}
