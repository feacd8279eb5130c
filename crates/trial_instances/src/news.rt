// The newsvendor of a trial.
ghost use Rattle.std.specs.Prelude.{◌≡◌, IfOk};
ghost use Rattle.trial_instances.specs.News.{trial_news};

use crate::laws::drawn_law;
use crate::numbers::number;
use decision_model::Instance;
use fraction128::Memory;
use newsvendor::Newsvendor;
use std::alloc::Global;

/// The newsvendor of a trial's number: demands from 0 to 199 and their weights.
#[tactic(auto, unfolding(crate::specs::News::trial_news))]
pub fn trial_news(alloc: Global, trial: u32) -> Result<Instance, Memory>
    ensures { IfOk result (λ made. made ≡ Instance.News (trial_news trial)) }
{
    let holding = number(trial, 0, 1, 9);
    let stockout = number(trial, 1, 10, 99);
    let law = drawn_law(alloc, trial, 2, 200, 1_000)?;
    Ok(Instance::News(Newsvendor {
        holding,
        stockout,
        law,
    }))
}
