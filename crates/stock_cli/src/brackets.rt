// Brackets of average costs, as what a command is about.
ghost use Rattle.std.specs.Prelude.{◌≡◌, ◌≢◌, ◌≤◌};

use crate::any_cert::AnyCert;
use crate::certificates::check_from;
use crate::inputs::Input;
use crate::kinds::fault_of;
use crate::subject::Subject;
use bracket_cost::solve_bracket;
use decision_model::Average;
use flat_check::BracketTextCheck;
use fraction128::{Memory, Text};
use instance_json::{InstanceErr, read_wide};
use line_check::Verdict;
use report_text::{Fault, bracket_report};
use std::alloc::Global;
use stock_edge::{Files, Source};
use value_cert::BracketCert;

/// Average costs that are bounded from below and from above.
pub struct Brackets;

impl Subject for Brackets {
    type Item = Average;

    type Cert = BracketCert;

    ghost use Rattle.stock_cli.specs.BracketSubject.{bracket_subject};

    ghost subject = { bracket_subject };

    fn read(alloc: Global, bytes: &[u8]) -> Result<Average, InstanceErr> {
        read_wide(alloc, bytes)
    }

    fn solvable(_average: &Average) -> Result<(), Fault> {
        Ok(())
    }

    fn solve(alloc: Global, average: &Average) -> Result<BracketCert, Memory> {
        solve_bracket(alloc, average)
    }

    fn report(alloc: Global, average: &Average, cert: &BracketCert) -> Result<Text, Memory> {
        bracket_report(alloc, average, cert)
    }

    fn wrap(cert: BracketCert) -> AnyCert {
        AnyCert::Bracket(cert)
    }

    fn verdict<I: Source, F: Files>(
        alloc: Global,
        average: &Average,
        from: &Input<'_>,
        input: &mut I,
        files: &mut F,
    ) -> Result<Verdict, Fault> {
        let mut check = BracketTextCheck::new(alloc, average)?;
        match check_from(from, input, files, &mut check) {
            Ok(verdict) => Ok(verdict),
            Err(wrong) => Err(fault_of(alloc, from.name(), wrong)),
        }
    }
}
