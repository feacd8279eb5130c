// The texts of all kinds: the dispatch by kind, for what is read and for what is written.
ghost use Rattle.std.specs.Prelude.{◌≡◌, IfOk, OnOk};
ghost use Rattle.serde_json.specs.View.{view};
ghost use Rattle.decision_model.specs.Valid.{IsReadable};
ghost use Rattle.json_forms.specs.Faults.{Gives};
ghost use Rattle.json_forms.specs.Keys.{has_keys};
ghost use Rattle.instance_json.specs.KindText.{read_by};
ghost use Rattle.instance_json.specs.Kinds.{of_kind, text_of};

use decision_model::{Instance, Kind};
use json_forms::fault::InstanceErr;
use serde_json::Value;
use std::alloc::{AllocError, Global};

/// The text of a kind's instances, which the kind's file answers.
pub trait KindText: Sized {
    ghost use Rattle.instance_json.specs.KindText.{TextOf};

    ghost text: { TextOf Self };

    /// The object has the keys of the kind's table.
    fn has_keys(alloc: Global, object: &Value) -> Result<(), InstanceErr>
        ensures { Gives result (has_keys text.keys (view object.now)) };

    /// The values of the keys, in the order of the table.
    fn read(alloc: Global, object: &Value) -> Result<Self, InstanceErr>
        ensures value { Gives result (text.reading (view object.now)) }
        ensures readable { IfOk result text.readable };

    /// The first rule over several keys that is broken.
    fn rules(&self, alloc: Global) -> Result<(), InstanceErr>
        requires { text.readable self.now }
        ensures value { Gives result (text.broken self.now) }
        ensures meaning { OnOk result (text.meets self.now) };

    fn to_value(&self, alloc: Global) -> Result<Value, AllocError>
        ensures value { IfOk result (λ value. view value ≡ text.written self.now) }
        ensures typed { text.typed self.now };
}

/// An instance with the keys of its kind, its rules over several keys aside.
#[tactic(auto, using(json_forms::proofs::Chained::steps), unfolding(crate::specs::KindText::read_by))]
pub fn read_by<K: KindText>(alloc: Global, object: &Value) -> Result<K, InstanceErr>
    ensures value { Gives result (read_by K.text (view object.now)) }
    ensures readable { IfOk result K.text.readable }
{
    K::has_keys(alloc, object)?;
    K::read(alloc, object)
}

/// The instance of a kind that an object says, its rules over several keys aside.
#[tactic(auto, using(json_forms::proofs::Chained::steps))]
pub fn of_kind(alloc: Global, kind: Kind, object: &Value) -> Result<Instance, InstanceErr>
    ensures value { Gives result (of_kind kind (view object.now)) }
    ensures readable { IfOk result IsReadable }
{
    match kind {
        Kind::News => Ok(Instance::News(read_by(alloc, object)?)),
        Kind::Lots => Ok(Instance::Lots(read_by(alloc, object)?)),
        Kind::Finite => Ok(Instance::Finite(read_by(alloc, object)?)),
        Kind::Average => Ok(Instance::Average(read_by(alloc, object)?)),
        Kind::Serial => Ok(Instance::Serial(read_by(alloc, object)?)),
        Kind::Network => Ok(Instance::Network(read_by(alloc, object)?)),
    }
}

// The one dispatch by kind for what is written: a body over what an instance holds.
macro_rules! of_any_kind {
    ($instance:expr, $held:ident => $body:expr) => {
        match $instance {
            Instance::News($held) => $body,
            Instance::Lots($held) => $body,
            Instance::Finite($held) => $body,
            Instance::Average($held) => $body,
            Instance::Serial($held) => $body,
            Instance::Network($held) => $body,
        }
    };
}

/// The first rule of its kind that an instance breaks.
pub fn kind_rules(alloc: Global, instance: &Instance) -> Result<(), InstanceErr>
    requires { IsReadable instance.now }
    ensures value { Gives result (text_of instance.now).broken }
    ensures meaning { OnOk result (text_of instance.now).meets }
{
    of_any_kind!(instance, held => held.rules(alloc))
}

/// The JSON value of an instance.
pub fn to_value(alloc: Global, instance: &Instance) -> Result<Value, AllocError>
    ensures value { IfOk result (λ value. view value ≡ (text_of instance.now).written) }
    ensures typed { (text_of instance.now).typed }
{
    of_any_kind!(instance, held => held.to_value(alloc))
}
