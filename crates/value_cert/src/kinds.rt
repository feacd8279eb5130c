// The dispatch over the kinds.
ghost use Rattle.std.specs.Prelude.{◌≡◌, IsTrue};
ghost use Rattle.std.specs.List.{list_all};
ghost use Rattle.value_cert.specs.Grammar.{has_numbers};
ghost use Rattle.value_cert.specs.Kinds.{table_of, has_certificates};
ghost use Rattle.value_cert.specs.Texts.{cert_lines, IsComplete};
ghost use Rattle.value_cert.specs.Writes.{output, Writes};

use crate::cert::Cert;
use crate::line::Tag;
use crate::piece::Piece;
use crate::{average, finite, lots, news, serial};
use decision_model::Kind;
use stock_edge::{Failed, Sink};

// What the module of a kind says; a kind without certificates says no.
macro_rules! by_kind {
    ($kind:expr, $asked:ident($($argument:expr),*)) => {
        match $kind {
            Kind::News => news::$asked($($argument),*),
            Kind::Lots => lots::$asked($($argument),*),
            Kind::Finite => finite::$asked($($argument),*),
            Kind::Average => average::$asked($($argument),*),
            Kind::Serial => serial::$asked($($argument),*),
            Kind::Network => false,
        }
    };
}

/// Whether the head of a kind may have this discount, 1/1 being none.
pub(crate) fn may_have_discount(kind: Kind, num: i128, den: i128) -> bool
    ensures { result ≡ (table_of kind).discount num den }
{
    by_kind!(kind, may_have_discount(num, den))
}

/// Whether a kind has certificates: whether its head may stand without a discount.
pub(crate) fn has_certificates(kind: Kind) -> bool
    ensures { result ≡ has_certificates kind }
{
    may_have_discount(kind, 1, 1)
}

/// Whether a line that tells this may stand behind one that told that.
pub(crate) fn follows(kind: Kind, last: Tag, next: Tag) -> bool
    ensures { result ≡ (table_of kind).follows last next }
{
    by_kind!(kind, follows(last, next))
}

/// Writes the lines of a certificate, of which the last ones may stay in the piece.
pub(crate) fn write_lines<K: Sink>(
    cert: &Cert,
    piece: &mut Piece,
    sink: &mut K,
) -> Result<(), Failed>
    requires numbers { IsTrue (list_all has_numbers (cert_lines cert.now)) }
    requires complete { IsComplete cert.now }
    ensures { Writes (output (K.written sink.old) (K.faults sink.old) piece.old.items)
        (output (K.written sink.new) (K.faults sink.new) piece.new.items) result (cert_lines cert.now) }
{
    match cert {
        Cert::News(cert) => news::write(cert, piece, sink),
        Cert::Lots(cert) => lots::write(cert, piece, sink),
        Cert::Finite(cert) => finite::write(cert, piece, sink),
        Cert::Average(cert) => average::write(cert, piece, sink),
        Cert::Serial(cert) => serial::write(cert, piece, sink),
    }
}
