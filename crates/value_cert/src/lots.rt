// Certificates of lot plans.
ghost use Rattle.std.specs.Prelude.{◌≡◌, length, pos, IsTrue};
ghost use Rattle.std.specs.List.{list_all};
ghost use Rattle.value_cert.specs.Grammar.{has_numbers};
ghost use Rattle.value_cert.specs.Lots.{lot_follows, lot_table, order_lines, HasOrders};
ghost use Rattle.value_cert.specs.Texts.{cert_lines};
ghost use Rattle.value_cert.specs.Writes.{output, Writes};
ghost use Rattle.value_cert.specs.declared.cert.Cert.{Cert};

use crate::line::{CertLine, Tag, cost_line, head_line};
use crate::numbers::is_no_discount;
use crate::part::write_to_end;
use crate::piece::{Piece, write_line};
use decision_model::{Amounts, Kind};
use stock_edge::{Failed, Sink};

/// A lot plan, the dual price of each period's demand, and the plan's cost.
#[derive(Drop)]
pub struct LotCert {
    /// The order of each period.
    pub orders: Amounts,
    /// What each period's demand adds to the least cost.
    pub duals: Amounts,
    pub cost: u128,
}

pub(crate) fn may_have_discount(num: i128, den: i128) -> bool
    ensures { result ≡ lot_table.discount num den }
{
    is_no_discount(num, den)
}

pub(crate) fn follows(last: Tag, next: Tag) -> bool
    ensures { result ≡ lot_follows last next }
{
    matches!(
        (last, next),
        (Tag::Head, Tag::Order) | (Tag::Order, Tag::Order | Tag::Cost) | (Tag::Cost, Tag::End)
    )
}

fn order_line(order: u64, dual: u64) -> CertLine
    ensures { result ≡ CertLine.Order (pos order) (pos dual) }
{
    CertLine::Order(i128::from(order), i128::from(dual))
}

fn write_orders<K: Sink>(
    orders: &[u64],
    duals: &[u64],
    piece: &mut Piece,
    sink: &mut K,
) -> Result<(), Failed>
    requires { length duals.now ≡ length orders.now }
    ensures { Writes (output (K.written sink.old) (K.faults sink.old) piece.old.items)
        (output (K.written sink.new) (K.faults sink.new) piece.new.items) result (order_lines orders.now duals.now) }
{
    for (period, order) in orders.iter().enumerate() {
        let line = order_line(*order, duals[period]);
        write_line(&line, piece, sink)?;
    }
    Ok(())
}

pub(crate) fn write<K: Sink>(cert: &LotCert, piece: &mut Piece, sink: &mut K) -> Result<(), Failed>
    requires numbers { IsTrue (list_all has_numbers (cert_lines (Cert.Lots cert.now))) }
    requires orders { HasOrders cert.now }
    ensures { Writes (output (K.written sink.old) (K.faults sink.old) piece.old.items)
        (output (K.written sink.new) (K.faults sink.new) piece.new.items) result (cert_lines (Cert.Lots cert.now)) }
{
    let head = head_line(Kind::Lots, 1, 1);
    write_line(&head, piece, sink)?;
    write_orders(cert.orders.as_slice(), cert.duals.as_slice(), piece, sink)?;
    let last = [cost_line(cert.cost)];
    write_to_end(&last, piece, sink)
}
