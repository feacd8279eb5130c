// The check of a text, for any grammar and rules.
ghost use Rattle.std.specs.Prelude.{◌≡◌, ◌<◌, ◌≤◌, List, ℕ, [], ◌++◌, length, take, true, IfSome};
ghost use Rattle.line_text.specs.Breaches.{ruled};
ghost use Rattle.line_text.specs.TextBreaches.{text_breach};
ghost use Rattle.line_check.specs.Rules.{MayStand};
ghost use Rattle.line_check.specs.Verdicts.{verdict_of, is_rejection};
ghost use Rattle.line_check.specs.TextChecks.{Tells, FeedsLine, IsWholeText, IsTextCheckOf};

use crate::rules::LineRules;
use crate::verdict::Verdict;
use line_text::{Grammar, LineReader};

/// A check of a text whose bytes come in any pieces. Its reader alone places and numbers a line.
#[derive(Drop)]
pub struct TextCheck<G: Grammar, R: LineRules<G> + Drop> {
    reader: LineReader<G>,
    rules: R,
    // The verdict on the bytes so far.
    verdict: Verdict,
}

impl<G: Grammar, R: LineRules<G> + Drop> TextCheck<G, R> {
    /// A check of a text of this grammar of which nothing came, by rules that know of no line.
    pub fn new(grammar: G, rules: R) -> TextCheck<G, R>
        ensures grammar { result.reader.grammar ≡ grammar }
        ensures stands { (of : R.Of) → R.knows rules of [] →
            IsTextCheckOf (ruled (G.grammar grammar) (R.rules of)) (R.knows result.rules of)
            result.reader.lines result.verdict [] }
    {
        TextCheck {
            reader: LineReader::new(grammar),
            rules,
            verdict: Verdict::Going,
        }
    }

    // The verdict behind a line, if one of this number ended.
    fn verdict_behind(&mut self, line: Option<G::Line>, number: u64) -> Verdict
        requires { IfSome line (MayStand (G.grammar self.old.reader.grammar)) }
        ensures reader { self.new.reader ≡ self.old.reader }
        ensures feeds { (of : R.Of) → FeedsLine (ruled (G.grammar self.old.reader.grammar) (R.rules of))
            (R.knows self.old.rules of) (R.knows self.new.rules of)
            number ((G.grammar self.old.reader.grammar).ends self.old.reader.lines.place) line result }
    {
        let Some(line) = line else {
            return Verdict::Going;
        };
        match self.rules.feed(&line) {
            Some(rule) => Verdict::Rejected { line: number, rule },
            None => Verdict::of_passing(self.reader.has_ended()),
        }
    }

    // Takes the first bytes of a piece, as far as a line goes.
    fn take_line(&mut self, piece: &[u8]) -> usize
        requires { 0 < length piece.now }
        ensures within { result ≤ length piece.now }
        ensures some { 0 < result }
        ensures grammar { self.new.reader.grammar ≡ self.old.reader.grammar }
        ensures stands { (of : R.Of) (bytes : List ℕ) →
            IsTextCheckOf (ruled (G.grammar self.old.reader.grammar) (R.rules of)) (R.knows self.old.rules of)
            self.old.reader.lines self.old.verdict bytes →
            IsTextCheckOf (ruled (G.grammar self.old.reader.grammar) (R.rules of)) (R.knows self.new.rules of)
            self.new.reader.lines self.new.verdict (bytes ++ take result piece.now) }
        ensures kept { is_rejection self.old.verdict ≡ true → self.new.verdict ≡ self.old.verdict }
    {
        if self.verdict.is_rejected() {
            return piece.len();
        }
        let number = self.reader.number();
        match self.reader.push(piece) {
            Ok(taken) => {
                self.verdict = self.verdict_behind(taken.line, number);
                taken.count
            }
            Err(bad) => {
                self.verdict = Verdict::Rejected {
                    line: bad.number,
                    rule: 1,
                };
                piece.len()
            }
        }
    }

    /// Takes the next bytes: the verdict on the bytes so far. It is `Rejected` as soon as a line that breaks a rule has
    /// ended or has come to the limit, and then ever after; `Accepted` where the bytes so far are a whole text.
    pub fn push(&mut self, piece: &[u8]) -> Verdict
        ensures grammar { self.new.reader.grammar ≡ self.old.reader.grammar }
        ensures stands { (of : R.Of) (bytes : List ℕ) →
            IsTextCheckOf (ruled (G.grammar self.old.reader.grammar) (R.rules of)) (R.knows self.old.rules of)
            self.old.reader.lines self.old.verdict bytes →
            IsTextCheckOf (ruled (G.grammar self.old.reader.grammar) (R.rules of)) (R.knows self.new.rules of)
            self.new.reader.lines self.new.verdict (bytes ++ piece.now) }
        ensures answer { (of : R.Of) (bytes : List ℕ) →
            IsTextCheckOf (ruled (G.grammar self.old.reader.grammar) (R.rules of)) (R.knows self.old.rules of)
            self.old.reader.lines self.old.verdict bytes →
            Tells (ruled (G.grammar self.old.reader.grammar) (R.rules of)) (bytes ++ piece.now) result }
        // A rejection is the answer to whatever comes behind it.
        ensures last { result ≡ self.new.verdict }
        ensures kept { is_rejection self.old.verdict ≡ true → result ≡ self.old.verdict }
    {
        let mut rest = piece;
        while !rest.is_empty() {
            let taken = self.take_line(rest);
            rest = &rest[taken..];
        }
        self.verdict
    }

    /// The verdict on the bytes so far where no more come.
    pub fn end(&self) -> Verdict
        ensures answer { (of : R.Of) (bytes : List ℕ) →
            IsTextCheckOf (ruled (G.grammar self.now.reader.grammar) (R.rules of)) (R.knows self.now.rules of)
            self.now.reader.lines self.now.verdict bytes →
            result ≡ verdict_of (text_breach (ruled (G.grammar self.now.reader.grammar) (R.rules of)) bytes) }
        ensures accepted { (of : R.Of) (bytes : List ℕ) →
            IsTextCheckOf (ruled (G.grammar self.now.reader.grammar) (R.rules of)) (R.knows self.now.rules of)
            self.now.reader.lines self.now.verdict bytes →
            result ≡ Verdict.Accepted → IsWholeText (ruled (G.grammar self.now.reader.grammar) (R.rules of)) bytes }
    {
        match self.verdict {
            Verdict::Going => Verdict::Rejected {
                line: self.reader.number(),
                rule: 1,
            },
            Verdict::Accepted | Verdict::Rejected { .. } => self.verdict,
        }
    }
}
