// The average kind as a decision problem of some number of periods.
use crate::average::Average;
use crate::problem::Problem;
use demand_law::Law;

/// An instance of the average kind over a number of periods, from a start.
pub struct AverageRun<'a> {
    pub item: &'a Average,
    pub periods: u32,
    /// The position before the first order.
    pub start: i64,
}

impl<'a> Problem for AverageRun<'a> {
    ghost use Rattle.std.specs.Prelude.{◌+◌};
    ghost use Rattle.decision_model.specs.Average.{average_cost_bound};
    ghost use Rattle.decision_model.specs.AverageProblem.{lowest_state};
    ghost use Rattle.decision_model.specs.AverageLaws.{average_meaning, IsRegularRun, run_on_grid, run_within, run_steps, run_choice, run_cost_least, run_cost_below};

    ghost meaning = { λ run. average_meaning run.item.now run.periods run.start };

    ghost is_regular = { λ run. IsRegularRun run.item.now run.start };

    ghost low = { λ run t. lowest_state run.item.now run.start };

    ghost highest = { λ run. run.item.now.cap };

    ghost cost_bound = { λ run. run.item.now.setup + average_cost_bound run.item.now };

    fn parts(&self) -> usize {
        1
    }

    fn horizon(&self) -> u32 {
        self.periods
    }

    fn lookahead(&self) -> u32 {
        self.item.lead
    }

    fn discount(&self) -> (u32, u32) {
        (1, 1)
    }

    fn floor(&self, _t: u32) -> i64 {
        self.start
            .min(self.item.floor - i64::from(self.item.law.greatest()))
    }

    fn cap(&self) -> i64 {
        self.item.cap
    }

    fn law(&self, _t: u32) -> &Law {
        &self.item.law
    }

    fn step(&self, y: i64, d: u32) -> i64 {
        y - i64::from(d)
    }

    ghost within_grid = { λ run regular. run_within run.item.now run.periods run.start regular };

    ghost each_steps = { λ run regular. run_steps run.item.now run.periods run.start regular };

    ghost on_grid = { λ run regular. run_on_grid run.item.now run.periods run.start regular };

    ghost some_choice = { λ run regular. run_choice run.item.now run.periods run.start regular };

    ghost costs_nothing_less = { λ run regular t state choice ds le on ok s. run_cost_least run.item.now run.periods run.start regular t state choice ds };

    ghost costs_less = { λ run regular t state choice ds le on ok s. run_cost_below run.item.now run.periods run.start regular t state choice ds ok s };
}
