// The lines of lot sizes.
ghost use Rattle.std.specs.Prelude.{◌≡◌, ◌++◌, OnOk};
ghost use Rattle.report_text.specs.Lots.{order_report, orders_report, plan_lines};

use crate::pieces::push_number;
use fraction128::{Memory, Text};
use value_cert::LotCert;

// Appends the line of a period's order.
fn push_order(out: &mut Text, period: usize, order: u64) -> Result<(), Memory>
    ensures { OnOk result (out.new ≡ out.old ++ order_report period order) }
{
    out.push(b"period ")?;
    push_number(out, period)?;
    out.push(b" order ")?;
    push_number(out, order)?;
    out.push(b"\n")
}

// Appends a line for the order of each period.
fn push_orders(out: &mut Text, orders: &[u64]) -> Result<(), Memory>
    ensures { OnOk result (out.new ≡ out.old ++ orders_report orders.now) }
{
    for (place, order) in orders.iter().enumerate() {
        push_order(out, place + 1, *order)?;
    }
    Ok(())
}

// Appends the orders of a plan.
pub fn push_policy(out: &mut Text, cert: &LotCert) -> Result<(), Memory>
    ensures { OnOk result (out.new ≡ out.old ++ plan_lines cert.now.orders) }
{
    out.push(b"kind lots\n")?;
    push_orders(out, cert.orders.as_slice())
}
