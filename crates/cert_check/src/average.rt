// The rules of average costs.
ghost use Rattle.std.specs.Prelude.{◌≡◌, length, None, Some, if◌then◌else◌, unsigned_abs};
ghost use Rattle.decision_model.specs.Average.{IsValidAverage};
ghost use Rattle.average_recursion.specs.Recursions.{average_of, KnowsPoints};
ghost use Rattle.average_recursion.specs.Tables.{cells_needed, sums_needed};

use crate::kind_rules::KindRules;
use average_recursion::Points;
use decision_model::Average;
use value_cert::CertLine;

/// A check of an average cost's certificate. It keeps the entries that the lines name, in two tables over the grid.
#[derive(Drop)]
pub(crate) struct AverageCheck<'a> {
    points: Points<'a>,
}

impl<'a> AverageCheck<'a> {
    ghost use Rattle.value_cert.specs.AverageRules.{FirstPoints, no_points, named_points, is_gain, is_pair, are_points_whole, average_rule};
    ghost use Rattle.value_cert.specs.declared.line.CertLine.TheVariants.{Gain, Pair};

    pub(crate) fn new(
        average: &'a Average,
        cells: &'a mut [i128],
        sums: &'a mut [u128],
    ) -> AverageCheck<'a>
        requires valid { IsValidAverage average.now }
        requires cells { length cells.old ≡ cells_needed average.now }
        requires sums { length sums.old ≡ sums_needed average.now }
        ensures average { average_of result.points ≡ average.now }
        ensures points { KnowsPoints result.points no_points }
    {
        AverageCheck {
            points: Points::new(average, cells, sums),
        }
    }

    // Takes a line that may stand behind those so far: the least rule from 2 on that it breaks.
    fn take(&mut self, line: &CertLine) -> Option<u32>
        ensures average { average_of self.new.points ≡ average_of self.old.points }
        ensures rule { (first : FirstPoints) → KnowsPoints self.old.points first → result ≡ average_rule (average_of self.old.points) first line.now }
        ensures points { (first : FirstPoints) → KnowsPoints self.old.points first → result ≡ None →
            KnowsPoints self.new.points (named_points first line.now) }
    {
        match *line {
            CertLine::Gain(num, den) => self.take_gain(num, den),
            CertLine::Pair(low, high) => self.take_pair(low, high),
            CertLine::Point(at, lower, upper) => self.points.take_point(at, lower, upper),
            CertLine::End => self.broken_by_end(),
            _ => None,
        }
    }

    // Takes an average cost.
    fn take_gain(&mut self, num: i128, den: i128) -> Option<u32>
        ensures average { average_of self.new.points ≡ average_of self.old.points }
        ensures rule { result ≡ (if is_gain (average_of self.old.points) (unsigned_abs num) (unsigned_abs den) then None else Some 3) }
        ensures points { (first : FirstPoints) → KnowsPoints self.old.points first → result ≡ None →
            KnowsPoints self.new.points (named_points first (Gain num den)) }
    {
        if self.points.take_gain(num, den) {
            return None;
        }
        Some(3)
    }

    // Takes a pair.
    fn take_pair(&mut self, low: i128, high: i128) -> Option<u32>
        ensures average { average_of self.new.points ≡ average_of self.old.points }
        ensures rule { result ≡ (if is_pair (average_of self.old.points) low high then None else Some 4) }
        ensures points { (first : FirstPoints) → KnowsPoints self.old.points first → result ≡ None →
            KnowsPoints self.new.points (named_points first (Pair low high)) }
    {
        if self.points.take_pair(low, high) {
            return None;
        }
        Some(4)
    }

    fn broken_by_end(&self) -> Option<u32>
        ensures { (first : FirstPoints) → KnowsPoints self.now.points first →
            result ≡ (if are_points_whole (average_of self.now.points) first then None else Some 2) }
    {
        if self.points.is_whole() {
            None
        } else {
            Some(2)
        }
    }
}

impl<'a> KindRules for AverageCheck<'a> {
    ghost use Rattle.cert_check.specs.AverageChecks.{KnowsAverage};

    ghost knows = { KnowsAverage };

    fn feed(&mut self, line: &CertLine) -> Option<u32> {
        self.take(line)
    }
}
