// What `demand` prints of an instance.
ghost use Rattle.std.specs.Prelude.{◌≡◌, ◌++◌, true, OnOk, IfOk};
ghost use Rattle.decision_model.specs.Valid.{IsValid};
ghost use Rattle.report_text.specs.Demand.{has_laws, demand_text_of};

use crate::{average, finite, news, serial};
use decision_model::Instance;
use fraction128::{Memory, Text};
use std::alloc::Global;

/// Whether an instance has laws of demand. That of lot sizing is known, and a network is no decision over its demand.
pub fn has_laws(instance: &Instance) -> bool
    ensures { result ≡ has_laws instance.now }
{
    match instance {
        Instance::Lots(_) | Instance::Network(_) => false,
        _ => true,
    }
}

// Appends the laws of demand of an instance.
fn push_demand(alloc: Global, out: &mut Text, instance: &Instance) -> Result<(), Memory>
    requires { IsValid instance.now }
    ensures { OnOk result (out.new ≡ out.old ++ demand_text_of instance.now) }
{
    match instance {
        Instance::News(newsvendor) => news::push_demand(out, newsvendor),
        Instance::Lots(_) | Instance::Network(_) => Ok(()),
        Instance::Finite(finite) => finite::push_demand(alloc, out, finite),
        Instance::Average(average) => average::push_demand(alloc, out, average),
        Instance::Serial(serial) => serial::push_demand(alloc, out, serial),
    }
}

/// The laws of demand of an instance: of the one period of a newsvendor, of each period of a serial system, and of the
/// sum of an order's lead time and the period after it, once for an average cost and from each period on for a finite
/// horizon.
///
/// A law is a line for each demand with a weight, from the lowest up, and a line with the sum of the weights. Where each
/// period has a law, a line with the period's number, from 1, stands before it.
pub fn demand_text(alloc: Global, instance: &Instance) -> Result<Text, Memory>
    requires valid { IsValid instance.now }
    requires has_laws { has_laws instance.now ≡ true }
    ensures { IfOk result (λ text. text ≡ demand_text_of instance.now) }
{
    let mut text = Text::new(alloc);
    push_demand(alloc, &mut text, instance)?;
    Ok(text)
}
