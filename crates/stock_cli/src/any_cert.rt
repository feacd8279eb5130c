// A certificate of whatever a command is about.
ghost use Rattle.std.specs.Prelude.{OnOk};
ghost use Rattle.std.specs.Io.KnownBytes.{Appends};
ghost use Rattle.stock_edge.specs.Causes.{AppendsPrefix, HasCause};
ghost use Rattle.stock_cli.specs.AnyCerts.{any_text, AnyHasText};

use stock_edge::{Failed, Sink};
use value_cert::{BracketCert, Cert, write_bracket, write_cert};

/// A certificate, by what it is about.
#[derive(Drop)]
pub enum AnyCert {
    /// Of an instance of a kind.
    Kind(Cert),
    /// Of a bracket of an average cost.
    Bracket(BracketCert),
}

/// Writes the text of a certificate. After a fault a prefix of it was written.
pub fn write_any<O: Sink>(cert: &AnyCert, out: &mut O) -> Result<(), Failed>
    requires { AnyHasText cert.now }
    ensures whole { OnOk result (Appends (O.written out.old) (O.written out.new) (any_text cert.now)) }
    ensures prefix { AppendsPrefix (O.written out.old) (O.written out.new) (any_text cert.now) }
    ensures cause { HasCause (O.faults out.old) (O.faults out.new) result }
{
    match cert {
        AnyCert::Kind(cert) => write_cert(cert, out),
        AnyCert::Bracket(cert) => write_bracket(cert, out),
    }
}
