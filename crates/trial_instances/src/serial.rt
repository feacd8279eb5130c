// The serial system of a trial.
ghost use Rattle.std.specs.Prelude.{◌≡◌, ◌∷◌, [], pos, IfOk};
ghost use Rattle.trial_instances.specs.Serial.{trial_serial};

use crate::laws::{digits, one_law};
use crate::numbers::{number, numbers};
use decision_model::{Instance, Positions, Serial};
use fraction128::Memory;
use std::alloc::Global;

fn starts(alloc: Global) -> Result<Positions, Memory>
    ensures { IfOk result (λ starts. starts ≡ pos 10 ∷ pos 20 ∷ pos 30 ∷ pos 40 ∷ []) }
{
    Ok(Positions::new([10, 20, 30, 40].to_vec(alloc)?))
}

/// The serial system of a trial's number: 12 periods, four echelons and 400 positions.
#[tactic(auto, unfolding(crate::specs::Serial::trial_serial))]
pub fn trial_serial(alloc: Global, trial: u32) -> Result<Instance, Memory>
    ensures { IfOk result (λ made. made ≡ Instance.Serial (trial_serial trial)) }
{
    let holding = numbers(alloc, trial, 421, 4, 1, 3)?;
    let unit = numbers(alloc, trial, 425, 4, 0, 2)?;
    let stockout = number(trial, 429, 20, 40);
    let law = digits(alloc)?;
    let laws = one_law(alloc, law)?;
    let start = starts(alloc)?;
    Ok(Instance::Serial(Serial {
        periods: 12,
        holding,
        unit,
        stockout,
        discount_num: 1,
        discount_den: 1,
        laws,
        cap: 291,
        start,
    }))
}
