// What the rules of a kind of instance do for a check.
ghost use Rattle.std.specs.Prelude.{◌≡◌, List, true};
ghost use Rattle.decision_model.specs.declared.instance.Instance.{Instance};
ghost use Rattle.value_cert.specs.Grammar.{has_numbers};
ghost use Rattle.value_cert.specs.declared.line.CertLine.{CertLine};
ghost use Rattle.cert_check.specs.Answers.{AnswersBehindHead};

use value_cert::CertLine;

/// The rules of a kind behind the head, which know of the lines so far what they ask of the next one.
pub(crate) trait KindRules {
    // They are those of this instance, and know of these lines what they ask.
    ghost knows: { Self → Instance → List CertLine → Type 0 };

    /// Takes a line that may stand behind those so far, which broke no rule: the least rule from 2 on that it breaks.
    fn feed(&mut self, line: &CertLine) -> Option<u32>
        requires { has_numbers line.now ≡ true }
        ensures { (instance : Instance) (before : List CertLine) → knows self.old instance before →
            AnswersBehindHead (knows self.new) instance before line.now result };
}
