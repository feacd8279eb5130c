// The check of a certificate, line by line.
ghost use Rattle.std.specs.Prelude.{◌≡◌, List, [], ◌∷◌, ◌++◌, length, None};
ghost use Rattle.decision_model.specs.declared.instance.Instance.{Instance};
ghost use Rattle.decision_model.specs.Valid.{IsValid};
ghost use Rattle.line_check.specs.Verdicts.{fed_verdict, end_verdict};
ghost use Rattle.value_cert.specs.Breaches.{cert_rules, lines_breach};
ghost use Rattle.value_cert.specs.declared.line.CertLine.{CertLine};
ghost use Rattle.cert_check.specs.Meaning.{AreCertified};
ghost use Rattle.cert_check.specs.Tables.{cell_count, sum_count};
ghost use Rattle.cert_check.specs.Checks.{IsPassing, IsCheckOf};

use crate::kind_check::KindCheck;
use decision_model::Instance;
use line_check::Verdict;
use value_cert::{CertLine, Place};

/// A check of a certificate for an instance, which is fed line by line.
#[derive(Drop)]
pub struct Check<'a> {
    // Where the next line stands.
    place: Place,
    // Its number, from 1, as far as it can count.
    number: u64,
    // The last answer.
    verdict: Verdict,
    // The rules of the instance's kind.
    kind: KindCheck<'a>,
}

impl<'a> Check<'a> {
    /// A check of a certificate for the instance, to which no line was fed. It works in the two tables, whose lengths
    /// are `cells_of(instance)` and `sums_of(instance)`, whatever they hold.
    pub fn new(instance: &'a Instance, cells: &'a mut [i128], sums: &'a mut [u128]) -> Check<'a>
        requires valid { IsValid instance.now }
        requires cells { length cells.old ≡ cell_count instance.now }
        requires sums { length sums.old ≡ sum_count instance.now }
        ensures { IsCheckOf instance.now result [] }
    {
        Check {
            place: Place::Start,
            number: 1,
            verdict: Verdict::Going,
            kind: KindCheck::new(instance, cells, sums),
        }
    }

    // The rejection of the next line.
    fn rejection(&self, rule: u32) -> Verdict
        ensures { result ≡ Verdict.Rejected self.now.number rule }
    {
        Verdict::Rejected {
            line: self.number,
            rule,
        }
    }

    // The verdict on lines that broke no rule and a further one.
    fn test(&mut self, line: &CertLine) -> Verdict
        ensures answer { (instance : Instance) (lines : List CertLine) → IsPassing instance self.old lines →
            result ≡ fed_verdict (cert_rules instance) (lines ++ line.now ∷ []) }
        ensures passing { (instance : Instance) (lines : List CertLine) → IsPassing instance self.old lines →
            lines_breach instance (lines ++ line.now ∷ []) ≡ None → IsPassing instance self.new (lines ++ line.now ∷ []) }
    {
        let Some(next) = self.place.after(line) else {
            return self.rejection(1);
        };
        if let Some(rule) = self.kind.feed(line) {
            return self.rejection(rule);
        }
        self.place = next;
        self.number = self.number.saturating_add(1);
        Verdict::of_passing(next.has_ended())
    }

    /// Takes the next line: the verdict on the lines so far. Once one is rejected, each later answer is the same.
    pub fn feed(&mut self, line: &CertLine) -> Verdict
        ensures stands { (instance : Instance) (lines : List CertLine) → IsCheckOf instance self.old lines →
            IsCheckOf instance self.new (lines ++ line.now ∷ []) }
        ensures answer { (instance : Instance) (lines : List CertLine) → IsCheckOf instance self.old lines →
            result ≡ fed_verdict (cert_rules instance) (lines ++ line.now ∷ []) }
    {
        if self.verdict.is_rejected() {
            return self.verdict;
        }
        let verdict = self.test(line);
        self.verdict = verdict;
        verdict
    }

    /// The verdict where no more lines come.
    pub fn end(&self) -> Verdict
        ensures answer { (instance : Instance) (lines : List CertLine) → IsCheckOf instance self.now lines →
            result ≡ end_verdict (cert_rules instance) lines }
        // Whoever wrote what is accepted.
        ensures accepted { (instance : Instance) (lines : List CertLine) → IsCheckOf instance self.now lines →
            result ≡ Verdict.Accepted → AreCertified instance lines }
    {
        match self.verdict {
            Verdict::Going => self.rejection(1),
            Verdict::Accepted | Verdict::Rejected { .. } => self.verdict,
        }
    }
}
