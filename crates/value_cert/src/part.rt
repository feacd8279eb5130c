// The parts of certificates, each written line by line.
ghost use Rattle.std.specs.Prelude.{List, [], ◌∷◌, ◌++◌, IsTrue};
ghost use Rattle.std.specs.List.{flat_map, list_all};
ghost use Rattle.value_cert.specs.Grammar.{has_numbers};
ghost use Rattle.value_cert.specs.Writes.{output, Writes};
ghost use Rattle.value_cert.specs.declared.line.CertLine.{CertLine};

use crate::line::CertLine;
use crate::piece::{Piece, write_line};
use stock_edge::{Failed, Sink};

/// A part of a certificate, which is some lines of it.
pub(crate) trait Part {
    ghost lines: { Self → List CertLine };

    /// Writes these lines, of which the last ones may stay in the piece.
    fn write<K: Sink>(&self, piece: &mut Piece, sink: &mut K) -> Result<(), Failed>
        requires { IsTrue (list_all has_numbers (lines self.now)) }
        ensures { Writes (output (K.written sink.old) (K.faults sink.old) piece.old.items)
            (output (K.written sink.new) (K.faults sink.new) piece.new.items) result (lines self.now) };
}

/// Writes the lines of each part.
pub(crate) fn write_each<P: Part, K: Sink>(
    parts: &[P],
    piece: &mut Piece,
    sink: &mut K,
) -> Result<(), Failed>
    requires { IsTrue (list_all has_numbers (flat_map P.lines parts.now)) }
    ensures { Writes (output (K.written sink.old) (K.faults sink.old) piece.old.items)
        (output (K.written sink.new) (K.faults sink.new) piece.new.items) result (flat_map P.lines parts.now) }
{
    for part in parts {
        part.write(piece, sink)?;
    }
    Ok(())
}

impl Part for CertLine {
    ghost lines = { λ line. line ∷ [] };

    fn write<K: Sink>(&self, piece: &mut Piece, sink: &mut K) -> Result<(), Failed> {
        write_line(self, piece, sink)
    }
}

/// Writes the last parts of a certificate and its end.
pub(crate) fn write_to_end<P: Part, K: Sink>(
    parts: &[P],
    piece: &mut Piece,
    sink: &mut K,
) -> Result<(), Failed>
    requires { IsTrue (list_all has_numbers (flat_map P.lines parts.now)) }
    ensures { Writes (output (K.written sink.old) (K.faults sink.old) piece.old.items)
        (output (K.written sink.new) (K.faults sink.new) piece.new.items) result (flat_map P.lines parts.now ++ CertLine.End ∷ []) }
{
    write_each(parts, piece, sink)?;
    write_line(&CertLine::End, piece, sink)
}
