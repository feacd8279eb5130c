// The check of a certificate's text, whose bytes come in any pieces.
ghost use Rattle.std.specs.Prelude.{◌≡◌, ◌<◌, ◌≤◌, List, ℕ, [], ◌++◌, length, take, true, IfSome};
ghost use Rattle.decision_model.specs.declared.instance.Instance.{Instance};
ghost use Rattle.decision_model.specs.Valid.{IsValid};
ghost use Rattle.line_check.specs.Rules.{MayStand};
ghost use Rattle.line_check.specs.TextChecks.{FeedsLine};
ghost use Rattle.line_check.specs.Verdicts.{verdict_of, is_rejection};
ghost use Rattle.value_cert.specs.Breaches.{cert_rules, text_breach};
ghost use Rattle.value_cert.specs.CertGrammar.{cert_grammar};
ghost use Rattle.value_cert.specs.Grammar.{is_ended};
ghost use Rattle.cert_check.specs.Kinds.{KnowsKind};
ghost use Rattle.cert_check.specs.Meaning.{IsCertified, IsOwnText};
ghost use Rattle.cert_check.specs.Tables.{cell_count, sum_count};
ghost use Rattle.cert_check.specs.TextChecks.{Tells, last_verdict, IsTextCheckOf};

use crate::kind_check::KindCheck;
use decision_model::Instance;
use line_check::Verdict;
use line_text::LineReader;
use value_cert::{CertGrammar, CertLine};

/// A check of a certificate's text for an instance, whose bytes come in any pieces. Its reader alone places and numbers a
/// line.
#[derive(Drop)]
pub struct TextCheck<'a> {
    reader: LineReader<CertGrammar>,
    // The rules of the instance's kind.
    kind: KindCheck<'a>,
    // The last answer.
    verdict: Verdict,
}

impl<'a> TextCheck<'a> {
    /// A check of a text for the instance, of which nothing came. It works in the two tables, whose lengths are
    /// `cells_of(instance)` and `sums_of(instance)`, whatever they hold.
    pub fn new(instance: &'a Instance, cells: &'a mut [i128], sums: &'a mut [u128]) -> TextCheck<'a>
        requires valid { IsValid instance.now }
        requires cells { length cells.old ≡ cell_count instance.now }
        requires sums { length sums.old ≡ sum_count instance.now }
        ensures { IsTextCheckOf instance.now result [] }
    {
        TextCheck {
            reader: LineReader::new(CertGrammar),
            kind: KindCheck::new(instance, cells, sums),
            verdict: Verdict::Going,
        }
    }

    // The verdict behind a line, if one of this number ended.
    fn verdict_behind(&mut self, line: Option<CertLine>, number: u64) -> Verdict
        requires { IfSome line (MayStand cert_grammar) }
        ensures reader { self.new.reader ≡ self.old.reader }
        ensures feeds { (instance : Instance) → FeedsLine (cert_rules instance) (KnowsKind self.old.kind instance) (KnowsKind self.new.kind instance)
            number (is_ended self.old.reader.lines.place) line result }
    {
        let Some(line) = line else {
            return Verdict::Going;
        };
        match self.kind.feed(&line) {
            Some(rule) => Verdict::Rejected { line: number, rule },
            None => Verdict::of_passing(self.reader.has_ended()),
        }
    }

    // Takes the first bytes of a piece, as far as a line goes.
    fn take_line(&mut self, piece: &[u8]) -> usize
        requires { 0 < length piece.now }
        ensures within { result ≤ length piece.now }
        ensures some { 0 < result }
        ensures stands { (instance : Instance) (bytes : List ℕ) → IsTextCheckOf instance self.old bytes →
            IsTextCheckOf instance self.new (bytes ++ take result piece.now) }
        ensures kept { is_rejection (last_verdict self.old) ≡ true → last_verdict self.new ≡ last_verdict self.old }
    {
        if self.verdict.is_rejected() {
            return piece.len();
        }
        let number = self.reader.number();
        match self.reader.push(piece) {
            Ok(taken) => {
                self.verdict = self.verdict_behind(taken.line, number);
                taken.count
            }
            Err(bad) => {
                self.verdict = Verdict::Rejected {
                    line: bad.number,
                    rule: 1,
                };
                piece.len()
            }
        }
    }

    /// Takes the next bytes: the verdict on the bytes so far. It is `Rejected` as soon as a line that breaks a rule has
    /// ended or has come to 128 bytes, and then ever after; `Accepted` where the bytes so far are a whole certificate.
    pub fn push(&mut self, piece: &[u8]) -> Verdict
        ensures stands { (instance : Instance) (bytes : List ℕ) → IsTextCheckOf instance self.old bytes →
            IsTextCheckOf instance self.new (bytes ++ piece.now) }
        ensures answer { (instance : Instance) (bytes : List ℕ) → IsTextCheckOf instance self.old bytes →
            Tells instance (bytes ++ piece.now) result }
        // A rejection is the answer to whatever comes behind it.
        ensures last { result ≡ last_verdict self.new }
        ensures kept { is_rejection (last_verdict self.old) ≡ true → result ≡ last_verdict self.old }
    {
        let mut rest = piece;
        while !rest.is_empty() {
            let taken = self.take_line(rest);
            rest = &rest[taken..];
        }
        self.verdict
    }

    /// The verdict on the bytes so far where no more come.
    pub fn end(&self) -> Verdict
        ensures answer { (instance : Instance) (bytes : List ℕ) → IsTextCheckOf instance self.now bytes →
            result ≡ verdict_of (text_breach instance bytes) }
        // Whoever wrote what is accepted.
        ensures accepted { (instance : Instance) (bytes : List ℕ) → IsTextCheckOf instance self.now bytes →
            result ≡ Verdict.Accepted → IsCertified instance bytes }
        // What the solver writes is.
        ensures own { (instance : Instance) (bytes : List ℕ) → IsTextCheckOf instance self.now bytes →
            IsOwnText instance bytes → result ≡ Verdict.Accepted }
    {
        match self.verdict {
            Verdict::Going => Verdict::Rejected {
                line: self.reader.number(),
                rule: 1,
            },
            Verdict::Accepted | Verdict::Rejected { .. } => self.verdict,
        }
    }
}
