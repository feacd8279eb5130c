// The values of keys, each of some form.
ghost use Rattle.std.specs.Prelude.{◌≡◌, IfOk, IfSome, OnOk, IsTrue, Some};
ghost use Rattle.serde_json.specs.View.{view};
ghost use Rattle.json_forms.specs.Faults.{Gives, GivesField, MatchErr, top_key};
ghost use Rattle.json_forms.specs.Keys.{given, required, optional, in_range};
ghost use Rattle.json_forms.specs.declared.fault.InstanceFault.TheVariants.{Missing};

use crate::fault::{FieldErr, FieldFault, InstanceErr, InstanceFault, key_err, top_key};
use serde_json::Value;
use std::alloc::Global;

/// What the value of a key may be.
pub trait Form {
    ghost use Rattle.std.specs.Prelude.{Result};
    ghost use Rattle.serde_json.specs.Data.{Data};
    ghost use Rattle.json_forms.specs.declared.fault.FieldFault.{FieldFault};

    type Out: Drop;

    /// What a value of this form says, or its fault.
    ghost reading: { Self → Data → Result Self.Out FieldFault };

    /// What the reader asks of the form.
    ghost ready: { Self → Type 0 };

    /// What holds of each value that is read.
    ghost holds: { Self → Self.Out → Type 0 };

    fn read(&self, alloc: Global, value: &Value) -> Result<Self::Out, FieldErr>
        requires { ready self.now }
        ensures value { GivesField result (reading self.now (view value.now)) }
        ensures range { IfOk result (holds self.now) };
}

/// The value of a key that may be absent.
pub fn given<F: Form + Copy>(
    alloc: Global,
    object: &Value,
    name: &str,
    form: F,
) -> Result<Option<F::Out>, InstanceErr>
    requires { F.ready form }
    ensures value { Gives result (given (F.reading form) name.now (view object.now)) }
    ensures range { IfOk result (λ found. IfSome found (F.holds form)) }
{
    let Some(value) = object.get(name) else {
        return Ok(None);
    };
    match form.read(alloc, value) {
        Ok(found) => Ok(Some(found)),
        Err(error) => Err(key_err(alloc, name, error)),
    }
}

/// The refusal for an absent key.
pub fn missing(alloc: Global, name: &str) -> InstanceErr
    ensures { MatchErr result (λ fault. fault ≡ Missing (top_key name.now)) }
{
    match top_key(alloc, name) {
        Ok(key) => InstanceErr::Bad(InstanceFault::Missing(key)),
        Err(refused) => refused,
    }
}

/// The value of a key that must be there.
#[tactic(auto, using(crate::proofs::Chained::steps))]
pub fn required<F: Form + Copy>(
    alloc: Global,
    object: &Value,
    name: &str,
    form: F,
) -> Result<F::Out, InstanceErr>
    requires { F.ready form }
    ensures value { Gives result (required (F.reading form) name.now (view object.now)) }
    ensures range { IfOk result (F.holds form) }
{
    match given(alloc, object, name, form)? {
        Some(found) => Ok(found),
        None => Err(missing(alloc, name)),
    }
}

/// The value of a key, or what holds where it is absent.
#[tactic(auto, using(crate::proofs::Chained::steps))]
pub fn optional<F: Form + Copy>(
    alloc: Global,
    object: &Value,
    name: &str,
    form: F,
    default: F::Out,
) -> Result<F::Out, InstanceErr>
    requires ready { F.ready form }
    requires default { F.holds form default }
    ensures value { Gives result (optional (F.reading form) default name.now (view object.now)) }
    ensures range { IfOk result (F.holds form) }
{
    match given(alloc, object, name, form)? {
        Some(found) => Ok(found),
        None => Ok(default),
    }
}

/// A key's value is out of range where this doesn't hold.
pub fn in_range(alloc: Global, name: &str, holds: bool) -> Result<(), InstanceErr>
    ensures value { Gives result (in_range name.now holds) }
    ensures holds { OnOk result (IsTrue holds) }
{
    if holds {
        return Ok(());
    }
    Err(key_err(alloc, name, FieldErr::Bad(FieldFault::OutOfRange)))
}
