// The JSON text of an instance.
ghost use Rattle.std.specs.Prelude.{◌≡◌, IfOk, Some, Ok};
ghost use Rattle.serde_json.specs.Read.{read};
ghost use Rattle.decision_model.specs.Valid.{IsValid};
ghost use Rattle.instance_json.specs.Reads.{reads};
ghost use Rattle.instance_json.specs.Written.{instance_data, instance_text};

use crate::kinds::to_value;
use decision_model::Instance;
use fraction128::Memory;
use std::alloc::Global;

/// The JSON text of an instance, with no space and its keys in byte order.
///
/// Each optional key is written but `total`, and `most`, `seed` and the `demand` of a node where there is none. What may
/// be a number or a list is a list, a law is its points by ascending demand, and a list of one law is that law.
pub fn write_instance(alloc: Global, instance: &Instance) -> Result<Vec<u8>, Memory>
    ensures text { IfOk result (λ bytes. bytes.items ≡ instance_text instance.now) }
    ensures reads_back { IsValid instance.now → IfOk result (λ bytes. reads bytes.items ≡ Ok instance.now) }
    ensures is_json { IfOk result (λ bytes. read bytes.items ≡ Some (instance_data instance.now)) }
{
    let value = to_value(alloc, instance)?;
    match value.to_vec(alloc) {
        Ok(bytes) => Ok(bytes),
        Err(_) => Err(Memory),
    }
}
