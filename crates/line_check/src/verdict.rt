// What a check says.
ghost use Rattle.std.specs.Prelude.{◌≡◌};

/// What a check says of the lines so far.
#[derive(Clone, Copy, Debug, PartialEq, Eq)]
pub enum Verdict {
    /// The lines so far break no rule, and more have to come.
    Going,
    /// The text is whole, and breaks no rule.
    Accepted,
    /// A line, counted from 1, is the first that breaks a rule, and this is the least rule that it breaks.
    Rejected { line: u64, rule: u32 },
}

impl Verdict {
    ghost use Rattle.line_check.specs.Verdicts.{is_rejection, ended_verdict};

    /// The verdict on lines that break no rule, by whether the text may end behind them.
    pub fn of_passing(ended: bool) -> Verdict
        ensures { result ≡ ended_verdict ended }
    {
        if ended {
            Verdict::Accepted
        } else {
            Verdict::Going
        }
    }

    /// Whether a line broke a rule.
    pub fn is_rejected(&self) -> bool
        ensures { result ≡ is_rejection self.now }
    {
        match self {
            Verdict::Going | Verdict::Accepted => false,
            Verdict::Rejected { .. } => true,
        }
    }
}
