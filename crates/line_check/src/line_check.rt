// The check of lines, for any grammar and rules.
ghost use Rattle.std.specs.Prelude.{◌≡◌, List, [], ◌∷◌, ◌++◌, None, Some, false};
ghost use Rattle.line_text.specs.Breaches.{ruled, lines_breach};
ghost use Rattle.line_check.specs.Verdicts.{fed_verdict, end_verdict};
ghost use Rattle.line_check.specs.Checks.{AreWhole, IsPassing, IsCheckOf};

use crate::rules::LineRules;
use crate::verdict::Verdict;
use line_text::Grammar;

/// A check that is fed line by line.
#[derive(Drop)]
pub struct LineCheck<G: Grammar, R: LineRules<G> + Drop> {
    grammar: G,
    place: G::Place,
    number: u64,
    verdict: Verdict,
    rules: R,
}

impl<G: Grammar, R: LineRules<G> + Drop> LineCheck<G, R> {
    /// A check of a text of this grammar to which no line was fed.
    pub fn new(grammar: G, rules: R) -> LineCheck<G, R>
        ensures grammar { result.grammar ≡ grammar }
        ensures stands { (of : R.Of) → R.knows rules of [] →
            IsCheckOf (ruled (G.grammar grammar) (R.rules of)) (R.knows result.rules of)
            result.place result.number result.verdict [] }
    {
        LineCheck {
            grammar,
            place: grammar.start(),
            number: 1,
            verdict: Verdict::Going,
            rules,
        }
    }

    // The rejection of the next line.
    fn rejection(&self, rule: u32) -> Verdict
        ensures { result ≡ Verdict.Rejected self.now.number rule }
    {
        Verdict::Rejected {
            line: self.number,
            rule,
        }
    }

    // The verdict on lines that broke no rule and a further one.
    fn test(&mut self, line: &G::Line) -> Verdict
        ensures grammar { self.new.grammar ≡ self.old.grammar }
        ensures answer { (of : R.Of) (lines : List G.Line) →
            IsPassing (ruled (G.grammar self.old.grammar) (R.rules of)) (R.knows self.old.rules of)
            self.old.place self.old.number lines →
            result ≡ fed_verdict (ruled (G.grammar self.old.grammar) (R.rules of)) (lines ++ line.now ∷ []) }
        ensures passing { (of : R.Of) (lines : List G.Line) →
            IsPassing (ruled (G.grammar self.old.grammar) (R.rules of)) (R.knows self.old.rules of)
            self.old.place self.old.number lines →
            lines_breach (ruled (G.grammar self.old.grammar) (R.rules of)) (lines ++ line.now ∷ []) ≡ None →
            IsPassing (ruled (G.grammar self.old.grammar) (R.rules of)) (R.knows self.new.rules of)
            self.new.place self.new.number (lines ++ line.now ∷ []) }
    {
        let Some(next) = self.grammar.after(self.place, line) else {
            return self.rejection(1);
        };
        if let Some(rule) = self.rules.feed(line) {
            return self.rejection(rule);
        }
        self.place = next;
        self.number = self.number.saturating_add(1);
        Verdict::of_passing(self.grammar.has_ended(next))
    }

    /// Takes the next line: the verdict on the lines so far. Once one is rejected, each later answer is the same.
    pub fn feed(&mut self, line: &G::Line) -> Verdict
        ensures grammar { self.new.grammar ≡ self.old.grammar }
        ensures stands { (of : R.Of) (lines : List G.Line) →
            IsCheckOf (ruled (G.grammar self.old.grammar) (R.rules of)) (R.knows self.old.rules of)
            self.old.place self.old.number self.old.verdict lines →
            IsCheckOf (ruled (G.grammar self.old.grammar) (R.rules of)) (R.knows self.new.rules of)
            self.new.place self.new.number self.new.verdict (lines ++ line.now ∷ []) }
        ensures answer { (of : R.Of) (lines : List G.Line) →
            IsCheckOf (ruled (G.grammar self.old.grammar) (R.rules of)) (R.knows self.old.rules of)
            self.old.place self.old.number self.old.verdict lines →
            result ≡ fed_verdict (ruled (G.grammar self.old.grammar) (R.rules of)) (lines ++ line.now ∷ []) }
    {
        if self.verdict.is_rejected() {
            return self.verdict;
        }
        let verdict = self.test(line);
        self.verdict = verdict;
        verdict
    }

    /// The verdict where no more lines come.
    pub fn end(&self) -> Verdict
        ensures answer { (of : R.Of) (lines : List G.Line) →
            IsCheckOf (ruled (G.grammar self.now.grammar) (R.rules of)) (R.knows self.now.rules of)
            self.now.place self.now.number self.now.verdict lines →
            result ≡ end_verdict (ruled (G.grammar self.now.grammar) (R.rules of)) lines }
        ensures accepted { (of : R.Of) (lines : List G.Line) →
            IsCheckOf (ruled (G.grammar self.now.grammar) (R.rules of)) (R.knows self.now.rules of)
            self.now.place self.now.number self.now.verdict lines →
            result ≡ Verdict.Accepted → AreWhole (ruled (G.grammar self.now.grammar) (R.rules of)) lines }
    {
        match self.verdict {
            Verdict::Going => self.rejection(1),
            Verdict::Accepted | Verdict::Rejected { .. } => self.verdict,
        }
    }
}
