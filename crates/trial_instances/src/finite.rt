// The finite horizon of a trial.
ghost use Rattle.std.specs.Prelude.{◌≡◌, IfOk};
ghost use Rattle.trial_instances.specs.Finite.{trial_finite};

use crate::laws::{drawn_law, one_law};
use crate::numbers::number;
use decision_model::{Finite, Instance};
use fraction128::Memory;
use std::alloc::Global;

/// The finite horizon of a trial's number: 20 periods and 400 positions.
#[tactic(auto, unfolding(crate::specs::Finite::trial_finite))]
pub fn trial_finite(alloc: Global, trial: u32) -> Result<Instance, Memory>
    ensures { IfOk result (λ made. made ≡ Instance.Finite (trial_finite trial)) }
{
    let setup = number(trial, 404, 20, 80);
    let unit = number(trial, 405, 1, 5);
    let holding = number(trial, 406, 1, 5);
    let stockout = number(trial, 407, 10, 30);
    let law = drawn_law(alloc, trial, 408, 10, 2)?;
    let laws = one_law(alloc, law)?;
    Ok(Instance::Finite(Finite {
        periods: 20,
        lead: 1,
        setup,
        unit,
        holding,
        stockout,
        end_holding: 0,
        end_stockout: 0,
        discount_num: 1,
        discount_den: 1,
        laws,
        cap: 219,
        start: 0,
        most: None,
    }))
}
