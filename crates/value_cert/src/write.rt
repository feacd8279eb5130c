// Certificates as text, in pieces of whole lines.
ghost use Rattle.std.specs.Prelude.{OnOk};
ghost use Rattle.std.specs.Io.KnownBytes.{Appends};
ghost use Rattle.stock_edge.specs.Causes.{AppendsPrefix, HasCause};
ghost use Rattle.value_cert.specs.Texts.{cert_text, HasText};

use crate::cert::Cert;
use crate::kinds::write_lines;
use crate::piece::{Piece, flush};
use stock_edge::{Failed, Sink};

/// Writes the text of a certificate, in pieces of at most 16,384 bytes, and takes no memory. After `Failed` a prefix of
/// the text was written.
pub fn write_cert<K: Sink>(cert: &Cert, sink: &mut K) -> Result<(), Failed>
    requires { HasText cert.now }
    ensures whole { OnOk result (Appends (K.written sink.old) (K.written sink.new) (cert_text cert.now)) }
    ensures prefix { AppendsPrefix (K.written sink.old) (K.written sink.new) (cert_text cert.now) }
    ensures cause { HasCause (K.faults sink.old) (K.faults sink.new) result }
{
    let mut piece = Piece::new();
    write_lines(cert, &mut piece, sink)?;
    flush(&mut piece, sink)
}
