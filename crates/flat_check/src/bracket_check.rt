// The check of a bracket's certificate, line by line.
ghost use Rattle.std.specs.Prelude.{◌≡◌, List, [], ◌∷◌, ◌++◌, IfOk};
ghost use Rattle.decision_model.specs.WideAverage.{IsWideAverage};
ghost use Rattle.decision_model.specs.declared.average.Average.{Average};
ghost use Rattle.bracket_lemmas.specs.AcceptedLines.{AreBracketed};
ghost use Rattle.line_check.specs.Verdicts.{fed_verdict, end_verdict};
ghost use Rattle.value_cert.specs.declared.flat_line.FlatLine.{FlatLine};
ghost use Rattle.flat_check.specs.BracketMeaning.{bracket_ruled};
ghost use Rattle.flat_check.specs.BracketChecks.{IsBracketCheckOf};

use crate::bracket_lines::BracketLines;
use decision_model::Average;
use fraction128::Memory;
use line_check::{LineCheck, Verdict};
use std::alloc::Global;
use value_cert::{FlatGrammar, FlatLine, FlatName};

/// A check of a bracket's certificate for an average cost, which is fed line by line.
#[derive(Drop)]
pub struct BracketCheck<'a> {
    check: LineCheck<FlatGrammar, BracketLines<'a>>,
}

impl<'a> BracketCheck<'a> {
    /// A check of a certificate for the average cost, to which no line was fed. `Memory` is its only refusal.
    pub fn new(alloc: Global, average: &'a Average) -> Result<BracketCheck<'a>, Memory>
        requires { IsWideAverage average.now }
        ensures { IfOk result (λ check. IsBracketCheckOf average.now check []) }
    {
        let rules = BracketLines::new(alloc, average)?;
        Ok(BracketCheck {
            check: LineCheck::new(
                FlatGrammar {
                    name: FlatName::Bracket,
                },
                rules,
            ),
        })
    }

    /// Takes the next line: the verdict on the lines so far. Once one is rejected, each later answer is the same. It takes
    /// no memory.
    pub fn feed(&mut self, line: &FlatLine) -> Verdict
        ensures stands { (average : Average) (lines : List FlatLine) → IsBracketCheckOf average self.old lines →
            IsBracketCheckOf average self.new (lines ++ line.now ∷ []) }
        ensures answer { (average : Average) (lines : List FlatLine) → IsBracketCheckOf average self.old lines →
            result ≡ fed_verdict (bracket_ruled average) (lines ++ line.now ∷ []) }
    {
        self.check.feed(line)
    }

    /// The verdict where no more lines come.
    pub fn end(&self) -> Verdict
        ensures answer { (average : Average) (lines : List FlatLine) → IsBracketCheckOf average self.now lines →
            result ≡ end_verdict (bracket_ruled average) lines }
        // Whoever wrote what is accepted.
        ensures accepted { (average : Average) (lines : List FlatLine) → IsBracketCheckOf average self.now lines →
            result ≡ Verdict.Accepted → AreBracketed average lines }
    {
        self.check.end()
    }
}
