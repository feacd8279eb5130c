// What a certificate is fed to, piece by piece.
ghost use Rattle.std.specs.Prelude.{◌≡◌, ℕ, List, ◌++◌};
ghost use Rattle.line_text.specs.TextBreaches.{text_breach};
ghost use Rattle.line_check.specs.TextChecks.{Tells};
ghost use Rattle.line_check.specs.Verdicts.{verdict_of};
ghost use Rattle.stock_cli.specs.Checks.{TextCheckOf};

use cert_check::{TextCheck, Verdict};
use flat_check::BracketTextCheck;

/// What takes a text in any pieces and answers the verdict on it.
pub trait TakesText {
    ghost check: { TextCheckOf Self };

    /// Takes the next bytes: the verdict on the bytes so far. A rejection stays.
    fn push(&mut self, piece: &[u8]) -> Verdict
        ensures stands { (of : check.Of) (bytes : List ℕ) → check.StandsFor of self.old bytes →
            check.StandsFor of self.new (bytes ++ piece.now) }
        ensures answer { (of : check.Of) (bytes : List ℕ) → check.StandsFor of self.old bytes →
            Tells (check.rules of) (bytes ++ piece.now) result }
        ensures last { result ≡ check.last self.new };

    /// The verdict on the bytes so far where no more come.
    fn end(&self) -> Verdict
        ensures answer { (of : check.Of) (bytes : List ℕ) → check.StandsFor of self.now bytes →
            result ≡ verdict_of (text_breach (check.rules of) bytes) }
        ensures accepted { (of : check.Of) (bytes : List ℕ) → check.StandsFor of self.now bytes →
            result ≡ Verdict.Accepted → check.Claims of bytes };
}

impl TakesText for TextCheck<'_> {
    ghost use Rattle.stock_cli.specs.KindSubject.{kind_check};

    ghost check = { kind_check };

    fn push(&mut self, piece: &[u8]) -> Verdict {
        TextCheck::push(self, piece)
    }

    fn end(&self) -> Verdict {
        TextCheck::end(self)
    }
}

impl TakesText for BracketTextCheck<'_> {
    ghost use Rattle.stock_cli.specs.BracketSubject.{bracket_check};

    ghost check = { bracket_check };

    fn push(&mut self, piece: &[u8]) -> Verdict {
        BracketTextCheck::push(self, piece)
    }

    fn end(&self) -> Verdict {
        BracketTextCheck::end(self)
    }
}
