// Certificates of newsvendors.
ghost use Rattle.std.specs.Prelude.{◌≡◌, IsTrue};
ghost use Rattle.std.specs.List.{list_all};
ghost use Rattle.value_cert.specs.Grammar.{has_numbers};
ghost use Rattle.value_cert.specs.News.{news_follows, news_table};
ghost use Rattle.value_cert.specs.Texts.{cert_lines};
ghost use Rattle.value_cert.specs.Writes.{output, Writes};
ghost use Rattle.value_cert.specs.declared.cert.Cert.{Cert};

use crate::line::{CertLine, Tag, cost_line, head_line};
use crate::numbers::is_no_discount;
use crate::part::write_to_end;
use crate::piece::Piece;
use decision_model::Kind;
use newsvendor::NewsCert;
use stock_edge::{Failed, Sink};

pub(crate) fn may_have_discount(num: i128, den: i128) -> bool
    ensures { result ≡ news_table.discount num den }
{
    is_no_discount(num, den)
}

pub(crate) fn follows(last: Tag, next: Tag) -> bool
    ensures { result ≡ news_follows last next }
{
    matches!(
        (last, next),
        (Tag::Head, Tag::Level) | (Tag::Level, Tag::Cost) | (Tag::Cost, Tag::End)
    )
}

pub(crate) fn write<K: Sink>(cert: &NewsCert, piece: &mut Piece, sink: &mut K) -> Result<(), Failed>
    requires { IsTrue (list_all has_numbers (cert_lines (Cert.News cert.now))) }
    ensures { Writes (output (K.written sink.old) (K.faults sink.old) piece.old.items)
        (output (K.written sink.new) (K.faults sink.new) piece.new.items) result (cert_lines (Cert.News cert.now)) }
{
    let lines = [
        head_line(Kind::News, 1, 1),
        CertLine::Level(i128::from(cert.q)),
        cost_line(cert.cost),
    ];
    write_to_end(&lines, piece, sink)
}
