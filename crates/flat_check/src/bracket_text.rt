// The check of a bracket's text, whose bytes come in any pieces.
ghost use Rattle.std.specs.Prelude.{◌≡◌, ℕ, List, [], ◌++◌, true, IfOk};
ghost use Rattle.decision_model.specs.WideAverage.{IsWideAverage};
ghost use Rattle.decision_model.specs.declared.average.Average.{Average};
ghost use Rattle.line_check.specs.TextChecks.{Tells};
ghost use Rattle.line_check.specs.Verdicts.{verdict_of, is_rejection};
ghost use Rattle.line_text.specs.TextBreaches.{text_breach};
ghost use Rattle.flat_check.specs.BracketMeaning.{bracket_ruled, IsBracketText};
ghost use Rattle.flat_check.specs.BracketTexts.{IsBracketTextOf, last_verdict};

use crate::bracket_lines::BracketLines;
use decision_model::Average;
use fraction128::Memory;
use line_check::{TextCheck, Verdict};
use std::alloc::Global;
use value_cert::{FlatGrammar, FlatName};

/// A check of a bracket's text for an average cost, whose bytes come in any pieces.
#[derive(Drop)]
pub struct BracketTextCheck<'a> {
    check: TextCheck<FlatGrammar, BracketLines<'a>>,
}

impl<'a> BracketTextCheck<'a> {
    /// A check of a text for the average cost, of which nothing came. `Memory` is its only refusal.
    pub fn new(alloc: Global, average: &'a Average) -> Result<BracketTextCheck<'a>, Memory>
        requires { IsWideAverage average.now }
        ensures { IfOk result (λ check. IsBracketTextOf average.now check []) }
    {
        let rules = BracketLines::new(alloc, average)?;
        Ok(BracketTextCheck {
            check: TextCheck::new(
                FlatGrammar {
                    name: FlatName::Bracket,
                },
                rules,
            ),
        })
    }

    /// Takes the next bytes: the verdict on the bytes so far. It is `Rejected` as soon as a line that breaks a rule has
    /// ended or has come to 256 bytes, and then ever after; `Accepted` where the bytes so far are a whole certificate. It
    /// takes no memory.
    pub fn push(&mut self, piece: &[u8]) -> Verdict
        ensures stands { (average : Average) (bytes : List ℕ) → IsBracketTextOf average self.old bytes →
            IsBracketTextOf average self.new (bytes ++ piece.now) }
        ensures answer { (average : Average) (bytes : List ℕ) → IsBracketTextOf average self.old bytes →
            Tells (bracket_ruled average) (bytes ++ piece.now) result }
        // A rejection is the answer to whatever comes behind it.
        ensures last { result ≡ last_verdict self.new }
        ensures kept { is_rejection (last_verdict self.old) ≡ true → result ≡ last_verdict self.old }
    {
        self.check.push(piece)
    }

    /// The verdict on the bytes so far where no more come.
    pub fn end(&self) -> Verdict
        ensures answer { (average : Average) (bytes : List ℕ) → IsBracketTextOf average self.now bytes →
            result ≡ verdict_of (text_breach (bracket_ruled average) bytes) }
        // Whoever wrote what is accepted.
        ensures accepted { (average : Average) (bytes : List ℕ) → IsBracketTextOf average self.now bytes →
            result ≡ Verdict.Accepted → IsBracketText average bytes }
    {
        self.check.end()
    }
}
