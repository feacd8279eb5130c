// The average cost of a trial.
ghost use Rattle.std.specs.Prelude.{◌≡◌, IfOk};
ghost use Rattle.trial_instances.specs.Average.{trial_average};

use crate::laws::law_of;
use crate::numbers::number;
use decision_model::{Average, Instance};
use fraction128::Memory;
use std::alloc::Global;

/// The average cost of a trial's number: 200 positions, and a reorder point with a lot.
#[tactic(auto, unfolding(crate::specs::Average::trial_average))]
pub fn trial_average(alloc: Global, trial: u32) -> Result<Instance, Memory>
    ensures { IfOk result (λ made. made ≡ Instance.Average (trial_average trial)) }
{
    let setup = number(trial, 418, 10, 90);
    let holding = number(trial, 419, 1, 5);
    let stockout = number(trial, 420, 10, 50);
    let law = law_of(alloc, &[(0, 1), (1, 1)])?;
    Ok(Instance::Average(Average {
        lead: 2,
        setup,
        holding,
        stockout,
        law,
        floor: -20,
        cap: 179,
        lots: true,
    }))
}
