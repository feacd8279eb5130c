// Certificates of brackets of an average cost.
ghost use Rattle.std.specs.Prelude.{◌≡◌, pos, IsTrue, OnOk};
ghost use Rattle.std.specs.Io.KnownBytes.{Appends};
ghost use Rattle.stock_edge.specs.Causes.{AppendsPrefix, HasCause};
ghost use Rattle.value_cert.specs.Bracket.{bounds_row, pair_row, cell_row, bracket_lines, HasBracketText};
ghost use Rattle.value_cert.specs.FlatLines.{has_numbers};
ghost use Rattle.value_cert.specs.FlatWrites.{flat_text};
ghost use Rattle.value_cert.specs.declared.flat_line.FlatName.{FlatName};

use crate::flat_line::{FlatLine, FlatName};
use crate::flat_writing::{FlatPart, write_flat};
use decision_model::Items;
use stock_edge::{Failed, Sink};

/// A position, with its lower and its upper entry, in whole parts.
#[derive(Clone, Copy, Debug, PartialEq, Eq)]
pub struct BracketCell {
    pub at: i64,
    pub under: u128,
    pub over: i128,
}

/// The positions, from the floor up.
pub type BracketCells = Items<BracketCell>;

/// A lower and an upper bound of an average cost in whole parts, a pair of positions, and the entries of all positions
/// from the floor up.
#[derive(Drop)]
pub struct BracketCert {
    pub lower: u128,
    pub upper: u128,
    /// The greatest position that orders.
    pub low: i64,
    /// The position that it orders up to.
    pub high: i64,
    pub cells: BracketCells,
}

impl FlatPart for BracketCell {
    ghost line = { cell_row };

    fn row(&self) -> FlatLine {
        FlatLine::Row {
            tag: b'p',
            count: 3,
            a: i128::from(self.at),
            b: self.under as i128,
            c: self.over,
            e: 0,
        }
    }
}

fn bounds_row(cert: &BracketCert) -> FlatLine
    requires { IsTrue (has_numbers (bounds_row (pos cert.now.lower) (pos cert.now.upper))) }
    ensures { result ≡ bounds_row (pos cert.now.lower) (pos cert.now.upper) }
{
    FlatLine::Row {
        tag: b'g',
        count: 2,
        a: cert.lower as i128,
        b: cert.upper as i128,
        c: 0,
        e: 0,
    }
}

fn pair_row(cert: &BracketCert) -> FlatLine
    ensures { result ≡ pair_row cert.now.low cert.now.high }
{
    FlatLine::Row {
        tag: b's',
        count: 2,
        a: i128::from(cert.low),
        b: i128::from(cert.high),
        c: 0,
        e: 0,
    }
}

/// Writes the text of a bracket, in pieces of at most 16,384 bytes, and takes no memory. After `Failed` a prefix of the
/// text was written.
pub fn write_bracket<K: Sink>(cert: &BracketCert, sink: &mut K) -> Result<(), Failed>
    requires { HasBracketText cert.now }
    ensures whole { OnOk result (Appends (K.written sink.old) (K.written sink.new) (flat_text FlatName.Bracket (bracket_lines cert.now))) }
    ensures prefix { AppendsPrefix (K.written sink.old) (K.written sink.new) (flat_text FlatName.Bracket (bracket_lines cert.now)) }
    ensures cause { HasCause (K.faults sink.old) (K.faults sink.new) result }
{
    let first = [bounds_row(cert), pair_row(cert)];
    write_flat(FlatName::Bracket, &first, cert.cells.as_slice(), sink)
}
