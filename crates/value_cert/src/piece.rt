// The lines that go out together, without memory.
ghost use Rattle.std.specs.Prelude.{◌≡◌, ◌+◌, ◌≤◌, [], ◌∷◌, ◌++◌, length, OnOk, OnErr};
ghost use Rattle.std.specs.Io.KnownBytes.{Appends};
ghost use Rattle.arrayvec.specs.ArrayVec.{array_vec_len};
ghost use Rattle.stock_edge.specs.Causes.{AppendsPrefix, HasCause};
ghost use Rattle.value_cert.specs.Lines.{number_word};
ghost use Rattle.value_cert.specs.Writes.{output, Writes};

use crate::line::CertLine;
use crate::line_writing::put_line;
use arrayvec::ArrayVec;
use itoa::Buffer;
use stock_edge::{Failed, Sink, write_all};

/// Whole lines that go out in one write.
pub(crate) type Piece = ArrayVec<u8, 16384>;

/// No line with its line feed is longer.
const LONGEST_LINE: usize = 128;

/// Appends bytes.
pub(crate) fn put(piece: &mut Piece, bytes: &[u8])
    requires { array_vec_len piece.old + length bytes.now ≤ 16384 }
    ensures { piece.new.items ≡ piece.old.items ++ bytes.now }
{
    let _ = piece.try_extend_from_slice(bytes);
}

/// Appends a blank and a number in decimal.
pub(crate) fn put_number(piece: &mut Piece, number: i128)
    requires { array_vec_len piece.old + 41 ≤ 16384 }
    ensures word { piece.new.items ≡ piece.old.items ++ number_word number }
    ensures short { array_vec_len piece.new ≤ array_vec_len piece.old + 41 }
{
    let mut digits = Buffer::new();
    put(piece, b" ");
    put(piece, digits.format(number).as_bytes());
}

/// Writes what the piece holds, and empties it.
pub(crate) fn flush<K: Sink>(piece: &mut Piece, sink: &mut K) -> Result<(), Failed>
    ensures whole { OnOk result (Appends (K.written sink.old) (K.written sink.new) piece.old.items) }
    ensures empty { OnOk result (piece.new.items ≡ []) }
    ensures prefix { OnErr result (AppendsPrefix (K.written sink.old) (K.written sink.new) piece.old.items) }
    ensures cause { HasCause (K.faults sink.old) (K.faults sink.new) result }
{
    write_all(sink, piece.as_slice())?;
    piece.clear();
    Ok(())
}

/// Lets the piece go out where it has no room for a line.
fn make_room<K: Sink>(piece: &mut Piece, sink: &mut K) -> Result<(), Failed>
    ensures writes { Writes (output (K.written sink.old) (K.faults sink.old) piece.old.items)
        (output (K.written sink.new) (K.faults sink.new) piece.new.items) result [] }
    ensures room { OnOk result (array_vec_len piece.new + 128 ≤ 16384) }
{
    if piece.remaining_capacity() < LONGEST_LINE {
        return flush(piece, sink);
    }
    Ok(())
}

/// Puts a line into the piece, which goes out before where it has no room.
pub(crate) fn write_line<K: Sink>(
    line: &CertLine,
    piece: &mut Piece,
    sink: &mut K,
) -> Result<(), Failed>
    ensures { Writes (output (K.written sink.old) (K.faults sink.old) piece.old.items)
        (output (K.written sink.new) (K.faults sink.new) piece.new.items) result (line.now ∷ []) }
{
    make_room(piece, sink)?;
    put_line(line, piece);
    Ok(())
}
