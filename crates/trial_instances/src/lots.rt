// The lots of a trial.
ghost use Rattle.std.specs.Prelude.{◌≡◌, IfOk};
ghost use Rattle.trial_instances.specs.Lots.{trial_lots};

use crate::numbers::{number, numbers, repeated};
use decision_model::{Instance, LotSize};
use fraction128::Memory;
use std::alloc::Global;

/// The lots of a trial's number: 200 periods, each with a demand of its own.
#[tactic(auto, unfolding(crate::specs::Lots::trial_lots))]
pub fn trial_lots(alloc: Global, trial: u32) -> Result<Instance, Memory>
    ensures { IfOk result (λ made. made ≡ Instance.Lots (trial_lots trial)) }
{
    let demand = numbers(alloc, trial, 202, 200, 0, 100)?;
    let setup = repeated(alloc, 200, number(trial, 402, 100, 900))?;
    let unit = repeated(alloc, 200, 0)?;
    let holding = repeated(alloc, 200, number(trial, 403, 1, 9))?;
    Ok(Instance::Lots(LotSize {
        demand,
        setup,
        unit,
        holding,
    }))
}
