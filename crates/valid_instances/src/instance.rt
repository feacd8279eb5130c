// Instances of any kind.
ghost use Rattle.std.specs.Prelude.{◌↔◌, IsTrue};
ghost use Rattle.decision_model.specs.Valid.{IsReadable, GridFits, IsRegular, WidthFits, IsValid};
ghost use Rattle.valid_instances.specs.Rules.{KeepsRules};

use crate::average::{is_readable_average, keeps_average_rules};
use crate::finite::is_readable_finite;
use crate::lots::{has_no_speculation, is_readable_lots};
use crate::network::{is_readable_network, keeps_network_rules};
use crate::serial::is_readable_serial;
use decision_model::{Instance, grid_fits, width_ok};

// Whether each number is in its range, and each list has its length and shape. A newsvendor is so by its type.
fn is_readable(instance: &Instance) -> bool
    ensures { IsTrue result ↔ IsReadable instance.now }
{
    match instance {
        Instance::News(_) => true,
        Instance::Lots(lots) => is_readable_lots(lots),
        Instance::Finite(finite) => is_readable_finite(finite),
        Instance::Average(average) => is_readable_average(average),
        Instance::Serial(serial) => is_readable_serial(serial),
        Instance::Network(network) => is_readable_network(network),
    }
}

// Whether the rules of the kind over several keys are kept, beside those on a grid and on a width number.
fn keeps_rules(instance: &Instance) -> bool
    requires { IsReadable instance.now }
    ensures { IsTrue result ↔ KeepsRules instance.now }
{
    match instance {
        Instance::News(_) | Instance::Finite(_) | Instance::Serial(_) => true,
        Instance::Lots(lots) => has_no_speculation(lots),
        Instance::Average(average) => keeps_average_rules(average),
        Instance::Network(network) => keeps_network_rules(network),
    }
}

// Whether all rules are kept but that on the width number.
fn is_regular(instance: &Instance) -> bool
    ensures { IsTrue result ↔ IsRegular instance.now }
{
    is_readable(instance) && keeps_rules(instance) && grid_fits(instance)
}

/// Whether an instance keeps every rule of its kind, so that it may be given to its solver, to the checker or to the
/// simulator: each number is in its range, each list has its length and shape, the rules over several keys are kept, and
/// a grid and a width number, where the kind has them, are small enough.
///
/// It takes no memory. An instance that `instance_json` has read is valid already.
pub fn is_valid(instance: &Instance) -> bool
    ensures { IsTrue result ↔ IsValid instance.now }
{
    is_regular(instance) && width_ok(instance)
}
