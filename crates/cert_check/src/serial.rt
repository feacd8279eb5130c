// The rules of serial systems.
ghost use Rattle.std.specs.Prelude.{◌≡◌, ◌-◌, length, true, None, Some, if◌then◌else◌};
ghost use Rattle.decision_model.specs.Serial.{IsValidSerial};
ghost use Rattle.serial_recursion.specs.Recursions.{serial_of, periods_of, echelons_of, cells_of, KnowsRows};
ghost use Rattle.serial_recursion.specs.Tables.{cells_needed};

use crate::kind_rules::KindRules;
use decision_model::Serial;
use serial_recursion::Recursion;
use value_cert::CertLine;

/// A check of a serial system's certificate. It goes through the recursion with the levels that the lines name.
#[derive(Drop)]
pub(crate) struct SerialCheck<'a> {
    recursion: Recursion<'a>,
}

impl<'a> SerialCheck<'a> {
    ghost use Rattle.value_cert.specs.SerialRules.{FirstRows, no_rows, named_rows, is_next_period, are_periods_whole, last_period, level_rule, echelon_rule, position_rule, serial_rule};
    ghost use Rattle.value_cert.specs.declared.line.CertLine.TheVariants.{Period, Echelon, Part};
    ghost use Rattle.serial_recursion.specs.Periods.{is_ready};

    pub(crate) fn new(serial: &'a Serial, cells: &'a mut [i128]) -> SerialCheck<'a>
        requires valid { IsValidSerial serial.now }
        requires cells { length cells.old ≡ cells_needed serial.now }
        ensures serial { serial_of result.recursion ≡ serial.now }
        ensures rows { KnowsRows result.recursion no_rows }
    {
        SerialCheck {
            recursion: Recursion::new(serial, cells),
        }
    }

    // Takes a line that may stand behind those so far: the least rule from 2 on that it breaks.
    fn take(&mut self, line: &CertLine) -> Option<u32>
        ensures serial { serial_of self.new.recursion ≡ serial_of self.old.recursion }
        ensures rule { (first : FirstRows) → KnowsRows self.old.recursion first → result ≡ serial_rule (serial_of self.old.recursion) first line.now }
        ensures rows { (first : FirstRows) → KnowsRows self.old.recursion first → result ≡ None →
            KnowsRows self.new.recursion (named_rows first line.now) }
    {
        match *line {
            CertLine::Period(period) => self.take_period(period),
            CertLine::Echelon(echelon, level) => self.take_echelon(echelon, level),
            CertLine::Part(at, value) => self.take_part(at, value),
            CertLine::End => self.broken_by_end(),
            _ => None,
        }
    }

    // Takes the next period.
    fn take_period(&mut self, period: i128) -> Option<u32>
        ensures serial { serial_of self.new.recursion ≡ serial_of self.old.recursion }
        ensures rule { (first : FirstRows) → KnowsRows self.old.recursion first →
            result ≡ (if is_next_period (serial_of self.old.recursion) first period then None else Some 2) }
        ensures rows { (first : FirstRows) → KnowsRows self.old.recursion first → result ≡ None →
            KnowsRows self.new.recursion (named_rows first (Period period)) }
    {
        if !self.recursion.is_period_whole() {
            return Some(2);
        }
        let all = self.recursion.serial().periods;
        let periods = self.recursion.periods();
        if periods >= all {
            return Some(2);
        }
        if period != i128::from(all - periods) {
            return Some(2);
        }
        self.recursion.begin_period();
        None
    }

    // Takes the next echelon with its level.
    fn take_echelon(&mut self, echelon: i128, level: i128) -> Option<u32>
        ensures serial { serial_of self.new.recursion ≡ serial_of self.old.recursion }
        ensures rule { (first : FirstRows) → KnowsRows self.old.recursion first →
            result ≡ echelon_rule (serial_of self.old.recursion) first echelon level }
        ensures rows { (first : FirstRows) → KnowsRows self.old.recursion first → result ≡ None →
            KnowsRows self.new.recursion (named_rows first (Echelon echelon level)) }
    {
        if !self.recursion.is_echelon_next() {
            return Some(2);
        }
        if echelon != self.recursion.echelons() as i128 + 1 {
            return Some(2);
        }
        self.take_level(echelon, level)
    }

    // Takes the level of the next echelon.
    fn take_level(&mut self, echelon: i128, level: i128) -> Option<u32>
        requires ready { is_ready (serial_of self.old.recursion) (periods_of self.old.recursion) (echelons_of self.old.recursion) (cells_of self.old.recursion) ≡ true }
        ensures serial { serial_of self.new.recursion ≡ serial_of self.old.recursion }
        ensures rule { (first : FirstRows) → KnowsRows self.old.recursion first →
            result ≡ level_rule (serial_of self.old.recursion) first.later (first.periods - 1) (last_period (serial_of self.old.recursion) first) first.echelons level }
        ensures rows { (first : FirstRows) → KnowsRows self.old.recursion first → result ≡ None →
            KnowsRows self.new.recursion (named_rows first (Echelon echelon level)) }
    {
        if !self.recursion.is_on_grid(level) {
            return Some(3);
        }
        if !self.recursion.begin_echelon(level) {
            return Some(4);
        }
        None
    }

    // Takes the next position with its value.
    fn take_part(&mut self, at: i128, value: i128) -> Option<u32>
        ensures serial { serial_of self.new.recursion ≡ serial_of self.old.recursion }
        ensures rule { (first : FirstRows) → KnowsRows self.old.recursion first →
            result ≡ position_rule (serial_of self.old.recursion) first at value }
        ensures rows { (first : FirstRows) → KnowsRows self.old.recursion first → result ≡ None →
            KnowsRows self.new.recursion (named_rows first (Part at value)) }
    {
        if !self.recursion.is_position_next() {
            return Some(2);
        }
        if at != i128::from(self.recursion.position()) {
            return Some(2);
        }
        if value != self.recursion.find() {
            return Some(5);
        }
        self.recursion.keep();
        None
    }

    fn broken_by_end(&self) -> Option<u32>
        ensures { (first : FirstRows) → KnowsRows self.now.recursion first →
            result ≡ (if are_periods_whole (serial_of self.now.recursion) first then None else Some 2) }
    {
        let has_each_period = self.recursion.periods() == self.recursion.serial().periods;
        if has_each_period && self.recursion.is_period_whole() {
            None
        } else {
            Some(2)
        }
    }
}

impl<'a> KindRules for SerialCheck<'a> {
    ghost use Rattle.cert_check.specs.SerialChecks.{KnowsSerial};

    ghost knows = { KnowsSerial };

    fn feed(&mut self, line: &CertLine) -> Option<u32> {
        self.take(line)
    }
}
