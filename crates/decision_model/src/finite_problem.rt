// The finite kind as a decision problem.
use crate::finite::Finite;
use crate::problem::Problem;
use demand_law::Law;

impl Problem for Finite {
    ghost use Rattle.decision_model.specs.Finite.{IsReadableFinite, finite_low, finite_cost_bound};
    ghost use Rattle.decision_model.specs.FiniteLaws.{finite_meaning, finite_on_grid, finite_within, finite_steps, finite_choice, finite_cost_least, finite_cost_below};

    ghost meaning = { λ finite. finite_meaning finite };

    ghost is_regular = { λ finite. IsReadableFinite finite };

    ghost low = { λ finite t. finite_low finite t };

    ghost highest = { λ finite. finite.cap };

    ghost cost_bound = { λ finite. finite_cost_bound finite };

    fn parts(&self) -> usize {
        1
    }

    fn horizon(&self) -> u32 {
        self.periods
    }

    fn lookahead(&self) -> u32 {
        self.lead
    }

    fn discount(&self) -> (u32, u32) {
        (self.discount_num, self.discount_den)
    }

    fn floor(&self, t: u32) -> i64 {
        self.low(t)
    }

    fn cap(&self) -> i64 {
        self.cap
    }

    fn law(&self, t: u32) -> &Law {
        let laws = self.laws.as_slice();
        let place = (t - 1) as usize;
        if place < laws.len() {
            &laws[place]
        } else {
            &laws[0]
        }
    }

    fn step(&self, y: i64, d: u32) -> i64 {
        y - i64::from(d)
    }

    ghost within_grid = { λ finite readable. finite_within finite readable };

    ghost each_steps = { λ finite readable. finite_steps finite readable };

    ghost on_grid = { λ finite readable. finite_on_grid finite readable };

    ghost some_choice = { λ finite readable. finite_choice finite readable };

    ghost costs_nothing_less = { λ finite readable t state choice ds le on ok s. finite_cost_least finite readable t state choice ds ok };

    ghost costs_less = { λ finite readable. finite_cost_below finite readable };
}
