// Rules on the lines of a text.
ghost use Rattle.std.specs.Prelude.{List};
ghost use Rattle.line_text.specs.Rules.{RulesOf};
ghost use Rattle.line_check.specs.Rules.{MayStand, AnswersLine};

use line_text::Grammar;

/// Rules on the lines of a type of grammars, which know of the lines so far what they ask of the next one.
pub trait LineRules<G: Grammar> {
    /// What they are the rules of.
    type Of;

    ghost rules: { Self.Of → RulesOf G.Line };

    // They are the rules of this, and know of these lines what they ask.
    ghost knows: { Self → Self.Of → List G.Line → Type 0 };

    /// Takes a line that may stand behind those so far, which broke no rule: the least rule from 2 on that it breaks.
    fn feed(&mut self, line: &G::Line) -> Option<u32>
        requires { (grammar : G) × MayStand (G.grammar grammar) line.now }
        ensures { (of : Self.Of) (before : List G.Line) → knows self.old of before →
            AnswersLine (rules of) (knows self.new of) before line.now result };
}
