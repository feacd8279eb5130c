// Flat texts, in pieces of whole lines.
ghost use Rattle.std.specs.Prelude.{◌≡◌, ◌+◌, ◌≤◌, List, [], ◌∷◌, ◌++◌, length, map, codes, OnOk, IsTrue};
ghost use Rattle.std.specs.List.{list_all};
ghost use Rattle.std.specs.Io.KnownBytes.{Appends};
ghost use Rattle.arrayvec.specs.ArrayVec.{array_vec_len};
ghost use Rattle.stock_edge.specs.Causes.{AppendsPrefix, HasCause};
ghost use Rattle.value_cert.specs.FlatLines.{name_word, has_numbers, line_text};
ghost use Rattle.value_cert.specs.FlatWrites.{flat_text, flat_lines, WritesText};
ghost use Rattle.value_cert.specs.Lines.{number_word};
ghost use Rattle.value_cert.specs.Writes.{output};
ghost use Rattle.value_cert.specs.declared.flat_line.FlatLine.{FlatLine};

use crate::flat_line::{FlatLine, FlatName};
use crate::line_writing::{put_one, put_three, put_two};
use crate::piece::{Piece, flush, put, put_number};
use stock_edge::{Failed, Sink};

/// No flat line with its line feed is longer.
const LONGEST_FLAT_LINE: usize = 256;

/// What a row of a flat certificate is made of.
pub trait FlatPart {
    /// The row.
    ghost line: { Self → FlatLine };

    fn row(&self) -> FlatLine
        requires { IsTrue (has_numbers (line self.now)) }
        ensures { result ≡ line self.now };
}

impl FlatPart for FlatLine {
    ghost line = { λ row. row };

    fn row(&self) -> FlatLine {
        *self
    }
}

fn name_of(name: FlatName) -> &'static [u8]
    ensures word { result.now ≡ name_word name }
    ensures bound { length result.now ≤ 8 }
{
    name.word().as_bytes()
}

// The head of a name.
fn put_flat_head(name: FlatName, piece: &mut Piece)
    requires { array_vec_len piece.old + 256 ≤ 16384 }
    ensures { piece.new.items ≡ piece.old.items ++ codes "certificate 1 " ++ name_word name ++ 10 ∷ [] }
{
    put(piece, b"certificate 1 ");
    put(piece, name_of(name));
    put(piece, b"\n");
}

// A line of a letter and four numbers.
fn put_four(letter: &[u8], a: i128, b: i128, c: i128, e: i128, piece: &mut Piece)
    requires letter { length letter.now ≤ 4 }
    requires room { array_vec_len piece.old + 256 ≤ 16384 }
    ensures { piece.new.items ≡ piece.old.items ++ letter.now ++ number_word a ++ number_word b ++ number_word c ++ number_word e ++ 10 ∷ [] }
{
    put(piece, letter);
    put_number(piece, a);
    put_number(piece, b);
    put_number(piece, c);
    put_number(piece, e);
    put(piece, b"\n");
}

// Appends the text of a line, its line feed included.
fn put_flat_line(name: FlatName, line: &FlatLine, piece: &mut Piece)
    requires numbers { IsTrue (has_numbers line.now) }
    requires room { array_vec_len piece.old + 256 ≤ 16384 }
    ensures { piece.new.items ≡ piece.old.items ++ line_text name line.now }
{
    match *line {
        FlatLine::Head => put_flat_head(name, piece),
        FlatLine::Row {
            tag,
            count,
            a,
            b,
            c,
            e,
        } => {
            if count == 1 {
                return put_one(&[tag], a, piece);
            }
            if count == 2 {
                return put_two(&[tag], a, b, piece);
            }
            if count == 3 {
                return put_three(&[tag], a, b, c, piece);
            }
            put_four(&[tag], a, b, c, e, piece)
        }
        FlatLine::End => put(piece, b"end\n"),
    }
}

// Lets the piece go out where it has no room for a line.
fn make_flat_room<K: Sink>(piece: &mut Piece, sink: &mut K) -> Result<(), Failed>
    ensures writes { WritesText (output (K.written sink.old) (K.faults sink.old) piece.old.items)
        (output (K.written sink.new) (K.faults sink.new) piece.new.items) result [] }
    ensures room { OnOk result (array_vec_len piece.new + 256 ≤ 16384) }
{
    if piece.remaining_capacity() < LONGEST_FLAT_LINE {
        return flush(piece, sink);
    }
    Ok(())
}

// Puts a line into the piece, which goes out before where it has no room.
fn write_flat_line<K: Sink>(
    name: FlatName,
    line: &FlatLine,
    piece: &mut Piece,
    sink: &mut K,
) -> Result<(), Failed>
    requires { IsTrue (has_numbers line.now) }
    ensures { WritesText (output (K.written sink.old) (K.faults sink.old) piece.old.items)
        (output (K.written sink.new) (K.faults sink.new) piece.new.items) result (line_text name line.now) }
{
    make_flat_room(piece, sink)?;
    put_flat_line(name, line, piece);
    Ok(())
}

// Writes the row of each part.
fn write_rows<P: FlatPart, K: Sink>(
    name: FlatName,
    parts: &[P],
    piece: &mut Piece,
    sink: &mut K,
) -> Result<(), Failed>
    requires { IsTrue (list_all has_numbers (map P.line parts.now)) }
    ensures { WritesText (output (K.written sink.old) (K.faults sink.old) piece.old.items)
        (output (K.written sink.new) (K.faults sink.new) piece.new.items) result (flat_text name (map P.line parts.now)) }
{
    for part in parts {
        let row = part.row();
        write_flat_line(name, &row, piece, sink)?;
    }
    Ok(())
}

// Writes the last rows of a certificate and its end.
fn write_to_flat_end<P: FlatPart, K: Sink>(
    name: FlatName,
    parts: &[P],
    piece: &mut Piece,
    sink: &mut K,
) -> Result<(), Failed>
    requires { IsTrue (list_all has_numbers (map P.line parts.now)) }
    ensures { WritesText (output (K.written sink.old) (K.faults sink.old) piece.old.items)
        (output (K.written sink.new) (K.faults sink.new) piece.new.items) result (flat_text name (map P.line parts.now ++ FlatLine.End ∷ [])) }
{
    write_rows(name, parts, piece, sink)?;
    write_flat_line(name, &FlatLine::End, piece, sink)
}

// Writes the first rows of a certificate, and what stands behind them.
fn write_flat_rows<P: FlatPart, K: Sink>(
    name: FlatName,
    first: &[FlatLine],
    parts: &[P],
    piece: &mut Piece,
    sink: &mut K,
) -> Result<(), Failed>
    requires first { IsTrue (list_all has_numbers first.now) }
    requires parts { IsTrue (list_all has_numbers (map P.line parts.now)) }
    ensures { WritesText (output (K.written sink.old) (K.faults sink.old) piece.old.items)
        (output (K.written sink.new) (K.faults sink.new) piece.new.items) result (flat_text name (first.now ++ map P.line parts.now ++ FlatLine.End ∷ [])) }
{
    write_rows(name, first, piece, sink)?;
    write_to_flat_end(name, parts, piece, sink)
}

// Writes a certificate, of which the last lines may stay in the piece.
fn write_flat_lines<P: FlatPart, K: Sink>(
    name: FlatName,
    first: &[FlatLine],
    parts: &[P],
    piece: &mut Piece,
    sink: &mut K,
) -> Result<(), Failed>
    requires first { IsTrue (list_all has_numbers first.now) }
    requires parts { IsTrue (list_all has_numbers (map P.line parts.now)) }
    ensures { WritesText (output (K.written sink.old) (K.faults sink.old) piece.old.items)
        (output (K.written sink.new) (K.faults sink.new) piece.new.items) result (flat_text name (flat_lines first.now (map P.line parts.now))) }
{
    write_flat_line(name, &FlatLine::Head, piece, sink)?;
    write_flat_rows(name, first, parts, piece, sink)
}

/// Writes a flat text: its head, some rows, a row for each part, and its end. It goes out in pieces of at most 16,384 bytes
/// and takes no memory. After `Failed` a prefix of the text was written.
pub fn write_flat<P: FlatPart, K: Sink>(
    name: FlatName,
    first: &[FlatLine],
    parts: &[P],
    sink: &mut K,
) -> Result<(), Failed>
    requires first { IsTrue (list_all has_numbers first.now) }
    requires parts { IsTrue (list_all has_numbers (map P.line parts.now)) }
    ensures whole { OnOk result (Appends (K.written sink.old) (K.written sink.new) (flat_text name (flat_lines first.now (map P.line parts.now)))) }
    ensures prefix { AppendsPrefix (K.written sink.old) (K.written sink.new) (flat_text name (flat_lines first.now (map P.line parts.now))) }
    ensures cause { HasCause (K.faults sink.old) (K.faults sink.new) result }
{
    let mut piece = Piece::new();
    write_flat_lines(name, first, parts, &mut piece, sink)?;
    flush(&mut piece, sink)
}
