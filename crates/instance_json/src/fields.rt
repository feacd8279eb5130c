// Values of single keys: a setup cost, a lead time, a policy, the positions of a serial system.
ghost use Rattle.std.specs.Prelude.{◌≡◌};
ghost use Rattle.std.specs.List.{list_all};
ghost use Rattle.std.specs.Prelude.{int_le};
ghost use Rattle.serde_json.specs.View.{view};
ghost use Rattle.instance_json.specs.Positions.{rises_from, is_start};
ghost use Rattle.instance_json.specs.Fields.{policy_in};

use decision_model::limits::{LEAST_POSITION, MOST_LEAD, MOST_SETUP};
use json_forms::fault::{FieldErr, FieldFault};
use json_forms::form::Form;
use json_forms::numbers::{Amount, Count};
use serde_json::Value;
use std::alloc::Global;

/// A setup cost over a horizon of uncertain demand.
pub const SETUP: Amount = Amount {
    least: 0,
    most: MOST_SETUP,
};

/// A lead time.
pub const LEAD: Count = Count {
    least: 0,
    most: MOST_LEAD,
};

// Whether a policy is a reorder point with a lot.
fn policy_of(value: &Value) -> Result<bool, FieldFault>
    ensures { result ≡ policy_in (view value.now) }
{
    let Some(name) = value.as_str() else {
        return Err(FieldFault::WrongType);
    };
    if name == "sS" {
        return Ok(false);
    }
    if name == "rQ" {
        return Ok(true);
    }
    Err(FieldFault::OutOfRange)
}

/// Whether the policy asks for a reorder point with a lot, by its word.
#[derive(Clone, Copy)]
pub struct Policy;

impl Form for Policy {
    ghost use Rattle.std.specs.Prelude.{⊤};

    type Out = bool;

    ghost reading = { λ _. policy_in };

    ghost ready = { λ _. ⊤ };

    ghost holds = { λ _ _. ⊤ };

    fn read(&self, _alloc: Global, value: &Value) -> Result<bool, FieldErr> {
        let lots = policy_of(value)?;
        Ok(lots)
    }
}

// Whether each number is at least the one before it, and the first at least `low`.
fn rises_from(low: i64, positions: &[i64]) -> bool
    ensures { result ≡ rises_from low positions.now }
{
    let mut low = low;
    for position in positions {
        if *position < low {
            return false;
        }
        low = *position;
    }
    true
}

fn are_at_most(cap: i64, positions: &[i64]) -> bool
    ensures { result ≡ list_all (λ x. int_le x cap) positions.now }
{
    for position in positions {
        if *position > cap {
            return false;
        }
    }
    true
}

/// Whether echelon stocks never fall and are at most `cap`.
pub fn is_start(cap: i64, positions: &[i64]) -> bool
    ensures { result ≡ is_start cap positions.now }
{
    rises_from(LEAST_POSITION, positions) && are_at_most(cap, positions)
}
