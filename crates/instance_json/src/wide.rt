// From bytes to the average cost that they say, on a wide range of positions.
ghost use Rattle.std.specs.Prelude.{IfOk, OnOk};
ghost use Rattle.serde_json.specs.View.{view};
ghost use Rattle.decision_model.specs.Average.{IsReadableAverage};
ghost use Rattle.decision_model.specs.WideAverage.{IsWideAverage};
ghost use Rattle.json_forms.specs.Faults.{Gives};
ghost use Rattle.instance_json.specs.Wide.{wide_in, wide_fields, wide_rules, reads_wide};

use crate::kinds::{KindText, read_by};
use crate::read::kind_in;
use decision_model::{Average, Kind, wide_grid_fits, wide_width_ok};
use json_forms::fault::{InstanceErr, InstanceFault};
use json_forms::json_text::json;
use serde_json::Value;
use std::alloc::Global;

// The average cost that an object says, its rules over several keys aside.
fn wide_in(alloc: Global, object: &Value) -> Result<Average, InstanceErr>
    ensures value { Gives result (wide_in (view object.now)) }
    ensures readable { IfOk result IsReadableAverage }
{
    match kind_in(object) {
        Some(Kind::Average) => read_by(alloc, object),
        _ => Err(InstanceErr::Bad(InstanceFault::UnknownKind)),
    }
}

// The average cost that bytes say, its rules over several keys aside.
#[tactic(auto, using(json_forms::proofs::Chained::steps), unfolding(crate::specs::Wide::wide_fields))]
fn wide_fields(alloc: Global, bytes: &[u8]) -> Result<Average, InstanceErr>
    ensures value { Gives result (wide_fields bytes.now) }
    ensures readable { IfOk result IsReadableAverage }
{
    let value = json(alloc, bytes)?;
    wide_in(alloc, &value)
}

// The first rule that is broken: one of the kind, the size of the wide grid, the width of the bracket's numbers.
#[tactic(auto, using(json_forms::proofs::Chained::steps), unfolding(crate::specs::Wide::wide_rules))]
fn wide_rules(alloc: Global, average: &Average) -> Result<(), InstanceErr>
    requires { IsReadableAverage average.now }
    ensures value { Gives result (wide_rules average.now) }
    ensures wide { OnOk result (IsWideAverage average.now) }
{
    average.rules(alloc)?;
    if !wide_grid_fits(average) {
        return Err(InstanceErr::Bad(InstanceFault::Grid));
    }
    if !wide_width_ok(average) {
        return Err(InstanceErr::Bad(InstanceFault::Width));
    }
    Ok(())
}

/// The average cost that bytes say, to be bracketed, or their first fault.
///
/// It is read as `read_instance` reads it, with three differences: another kind than `average` is unknown, the grid may
/// have 20,000 positions, and `Width` comes where four times the positions, a million, setup and the greatest cost of a
/// period, and the sum of the weights to the power of the greater of 2 and the lead time and 1, come to more than 2^120.
#[tactic(auto, using(json_forms::proofs::Chained::steps), unfolding(crate::specs::Wide::reads_wide))]
pub fn read_wide(alloc: Global, bytes: &[u8]) -> Result<Average, InstanceErr>
    ensures value { Gives result (reads_wide bytes.now) }
    ensures wide { IfOk result IsWideAverage }
{
    let average = wide_fields(alloc, bytes)?;
    wide_rules(alloc, &average)?;
    Ok(average)
}
