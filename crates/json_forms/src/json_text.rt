// From bytes to the JSON value that they say.
ghost use Rattle.std.specs.Prelude.{◌≡◌, Ok, IfOk, IfErr};
ghost use Rattle.serde_json.specs.View.{view};
ghost use Rattle.json_forms.specs.Faults.{Refuses};
ghost use Rattle.json_forms.specs.Values.{value_in};

use crate::fault::{InstanceErr, InstanceFault};
use serde_json::{Category, Value};
use std::alloc::Global;

/// The JSON value of bytes, or that they are no JSON.
pub fn json(alloc: Global, bytes: &[u8]) -> Result<Value, InstanceErr>
    ensures ok { IfOk result (λ v. value_in bytes.now ≡ Ok (view v)) }
    ensures err { IfErr result (λ e. Refuses e (value_in bytes.now)) }
{
    match Value::from_slice(alloc, bytes) {
        Ok(value) => Ok(value),
        Err(error) => match error.classify() {
            Category::Memory => Err(InstanceErr::Memory),
            _ => Err(InstanceErr::Bad(InstanceFault::NotJson)),
        },
    }
}
