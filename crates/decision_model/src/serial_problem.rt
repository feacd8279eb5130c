// The serial kind as a decision problem.
use crate::problem::Problem;
use crate::serial::Serial;
use demand_law::Law;

impl Problem for Serial {
    ghost use Rattle.std.proofs.Common.{refl};
    ghost use Rattle.decision_model.specs.Serial.{IsReadableSerial, serial_low, serial_cost_bound};
    ghost use Rattle.decision_model.specs.SerialLaws.{serial_on_grid, serial_within, serial_choice, serial_cost_least, serial_cost_below};
    ghost use Rattle.decision_model.specs.SerialProblem.{serial_problem};

    ghost meaning = { λ serial. serial_problem serial };

    ghost is_regular = { λ serial. IsReadableSerial serial };

    ghost low = { λ serial t. serial_low serial t };

    ghost highest = { λ serial. serial.cap };

    ghost cost_bound = { λ serial. serial_cost_bound serial };

    fn parts(&self) -> usize {
        self.start.as_slice().len()
    }

    fn horizon(&self) -> u32 {
        self.periods
    }

    fn lookahead(&self) -> u32 {
        0
    }

    fn discount(&self) -> (u32, u32) {
        (self.discount_num, self.discount_den)
    }

    fn floor(&self, t: u32) -> i64 {
        self.low(t)
    }

    fn cap(&self) -> i64 {
        self.cap
    }

    fn law(&self, t: u32) -> &Law {
        let laws = self.laws.as_slice();
        let place = (t - 1) as usize;
        if place < laws.len() {
            &laws[place]
        } else {
            &laws[0]
        }
    }

    fn step(&self, y: i64, d: u32) -> i64 {
        y - i64::from(d)
    }

    ghost within_grid = { λ serial readable. serial_within serial readable };

    ghost each_steps = { λ serial readable t state choice d ok. refl };

    ghost on_grid = { λ serial readable. serial_on_grid serial readable };

    ghost some_choice = { λ serial readable. serial_choice serial readable };

    ghost costs_nothing_less = { λ serial readable. serial_cost_least serial readable };

    ghost costs_less = { λ serial readable. serial_cost_below serial readable };
}
