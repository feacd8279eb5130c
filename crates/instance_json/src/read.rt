// From bytes to the instance that they say.
ghost use Rattle.std.specs.Prelude.{◌≡◌, IfOk};
ghost use Rattle.serde_json.specs.View.{view};
ghost use Rattle.decision_model.specs.Valid.{IsReadable, IsValid};
ghost use Rattle.json_forms.specs.Faults.{Gives};
ghost use Rattle.instance_json.specs.Reads.{reads, kind_in, instance_in, fields_in};

use crate::kinds::of_kind;
use crate::rules::rules;
use decision_model::{Instance, Kind};
use json_forms::fault::{InstanceErr, InstanceFault};
use json_forms::json_text::json;
use serde_json::Value;
use std::alloc::Global;

/// The kind that an object says.
pub fn kind_in(object: &Value) -> Option<Kind>
    ensures { result ≡ kind_in (view object.now) }
{
    let value = object.get("kind")?;
    let name = value.as_str()?;
    Kind::named(name)
}

// The instance that an object says, its rules over several keys aside.
fn instance_in(alloc: Global, object: &Value) -> Result<Instance, InstanceErr>
    ensures value { Gives result (instance_in (view object.now)) }
    ensures readable { IfOk result IsReadable }
{
    match kind_in(object) {
        Some(kind) => of_kind(alloc, kind, object),
        None => Err(InstanceErr::Bad(InstanceFault::UnknownKind)),
    }
}

// The instance that bytes say, its rules over several keys aside.
#[tactic(auto, using(json_forms::proofs::Chained::steps), unfolding(crate::specs::Reads::fields_in))]
fn fields_in(alloc: Global, bytes: &[u8]) -> Result<Instance, InstanceErr>
    ensures value { Gives result (fields_in bytes.now) }
    ensures readable { IfOk result IsReadable }
{
    let value = json(alloc, bytes)?;
    instance_in(alloc, &value)
}

/// The instance that bytes say, or their first fault.
///
/// Faults are looked for in this order: the bytes are no JSON; the value says no kind; a required key is absent; a key
/// isn't the kind's; the value of a key, in the order of the kind's table, has a wrong shape, a number out of range, a
/// list of a wrong length or a law that can't be made; a rule over several keys is broken. The nodes and the pauses of a
/// network pass the tests of their own keys one by one, where the key of their list is reached. Of a repeated key the
/// last counts.
#[tactic(auto, using(json_forms::proofs::Chained::steps), unfolding(crate::specs::Reads::reads))]
pub fn read_instance(alloc: Global, bytes: &[u8]) -> Result<Instance, InstanceErr>
    ensures value { Gives result (reads bytes.now) }
    ensures valid { IfOk result IsValid }
{
    let instance = fields_in(alloc, bytes)?;
    rules(alloc, &instance)?;
    Ok(instance)
}
