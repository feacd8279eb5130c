// The rules over several keys of an instance.
ghost use Rattle.std.specs.Prelude.{OnOk};
ghost use Rattle.decision_model.specs.Valid.{IsReadable, IsValid};
ghost use Rattle.json_forms.specs.Faults.{Gives};
ghost use Rattle.instance_json.specs.Rules.{rules_of};

use crate::kinds::kind_rules;
use decision_model::{Instance, grid_fits, width_ok};
use json_forms::fault::{InstanceErr, InstanceFault};
use std::alloc::Global;

/// The first rule that is broken: one of the kind, the size of the grid, the width of the exact numbers.
#[tactic(auto, using(json_forms::proofs::Chained::steps), unfolding(crate::specs::Rules::rules_of))]
pub fn rules(alloc: Global, instance: &Instance) -> Result<(), InstanceErr>
    requires { IsReadable instance.now }
    ensures value { Gives result (rules_of instance.now) }
    ensures valid { OnOk result (IsValid instance.now) }
{
    kind_rules(alloc, instance)?;
    if !grid_fits(instance) {
        return Err(InstanceErr::Bad(InstanceFault::Grid));
    }
    if !width_ok(instance) {
        return Err(InstanceErr::Bad(InstanceFault::Width));
    }
    Ok(())
}
