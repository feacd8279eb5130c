// Reading a certificate piece by piece.
ghost use Rattle.std.specs.Prelude.{◌≡◌, ◌≢◌, ◌≤◌, [], None, IfOk, IfErr, OnErr};
ghost use Rattle.std.specs.Io.{ReadsAtMost};
ghost use Rattle.std.specs.Io.KnownBytes.{IsAtEnd, Keeps};
ghost use Rattle.stock_cli.specs.Causes.{counts_of, RoseAt, IsMissing, NoPiece, NotChecked, file_unchecked};
ghost use Rattle.stock_cli.specs.Checks.{GivesNext, IsVerdictOn, Reaches};
ghost use Rattle.stock_cli.specs.Inputs.{origin_of, input_name, content_of};

use crate::inputs::Input;
use crate::takes_text::TakesText;
use cert_check::Verdict;
use stock_edge::{Failed, FileFault, Files, Source};

/// How many bytes of a certificate are read at once.
const PIECE: usize = 4096;

/// No certificate has more bytes than this.
const LONGEST: u64 = u64::MAX - 4096;

/// Why there is no verdict on a certificate.
#[derive(Clone, Copy, Debug, PartialEq, Eq)]
pub enum Unchecked {
    /// There is no file of that name.
    Missing,
    /// The read failed.
    Failed,
    /// It goes on for longer than can be counted.
    Endless,
}

impl From<Failed> for Unchecked {
    ghost use Rattle.stock_cli.specs.declared.certificates.Unchecked.{Unchecked};

    ghost from_gives = { λ _ wrong. wrong ≡ Unchecked.Failed };

    fn from(_: Failed) -> Unchecked {
        Unchecked::Failed
    }
}

impl From<FileFault> for Unchecked {
    ghost from_gives = { λ fault wrong. wrong ≡ file_unchecked fault };

    fn from(fault: FileFault) -> Unchecked {
        match fault {
            FileFault::Missing => Unchecked::Missing,
            FileFault::Failed => Unchecked::Failed,
        }
    }
}

// Puts the next bytes of an input, of which so many came before, into the front of `buf`, and answers how many.
fn read_piece<I: Source, F: Files>(
    from: &Input<'_>,
    before: u64,
    input: &mut I,
    files: &mut F,
    buf: &mut [u8],
) -> Result<usize, Unchecked>
    ensures bound { ReadsAtMost result buf.new }
    ensures bytes { IfOk result
        (GivesNext (origin_of from.now) (I.left input.old) (I.left input.new) (F.held files.old) before buf.new) }
    ensures kept { OnErr result (Keeps (I.left input.old) (I.left input.new)) }
    ensures none { IfErr result (NoPiece
        (RoseAt (counts_of (I.faults input.old) (I.faults input.new) (F.faults files.old) (F.faults files.new)) (origin_of from.now))
        (IsMissing (F.held files.old) (origin_of from.now))) }
    ensures later_input { I.faults input.old ≤ I.faults input.new }
    ensures later_files { F.faults files.old ≤ F.faults files.new }
    ensures same_held { F.held files.new ≡ F.held files.old }
    ensures same_input { origin_of from.now ≢ None → input.new ≡ input.old }
    ensures same_files { origin_of from.now ≡ None → files.new ≡ files.old }
{
    match from {
        Input::Standard => Ok(input.read(buf)?),
        Input::File(name) => Ok(files.read_at(name, before, buf)?),
    }
}

/// The verdict on the certificate of an input. It is read no further than to the piece of the first line that is
/// rejected.
pub fn check_from<C: TakesText, I: Source, F: Files>(
    from: &Input<'_>,
    input: &mut I,
    files: &mut F,
    check: &mut C,
) -> Result<Verdict, Unchecked>
    ensures verdict { (of : C.check.Of) → C.check.StandsFor of check.old [] →
        IfOk result (IsVerdictOn (C.check.rules of) (C.check.Claims of) (content_of (I.left input.old) (F.held files.old) (origin_of from.now))) }
    ensures end { IfOk result (λ verdict. verdict ≡ Verdict.Accepted → origin_of from.now ≡ None → IsAtEnd (I.left input.new)) }
    ensures none { IfErr result (NotChecked
        (RoseAt (counts_of (I.faults input.old) (I.faults input.new) (F.faults files.old) (F.faults files.new)) (origin_of from.now))
        (input_name (origin_of from.now))
        (content_of (I.left input.old) (F.held files.old) (origin_of from.now))) }
    ensures reach { (of : C.check.Of) → C.check.StandsFor of check.old [] → origin_of from.now ≡ None →
        Reaches (C.check.rules of) (I.left input.old) (I.left input.new) }
    ensures later_input { I.faults input.old ≤ I.faults input.new }
    ensures later_files { F.faults files.old ≤ F.faults files.new }
    ensures same_input { origin_of from.now ≢ None → input.new ≡ input.old }
    ensures same_files { origin_of from.now ≡ None → files.new ≡ files.old }
{
    let mut buf = [0u8; PIECE];
    let mut taken = 0u64;
    while taken <= LONGEST {
        let count = read_piece(from, taken, input, files, &mut buf)?;
        if count == 0 {
            return Ok(check.end());
        }
        let verdict = check.push(&buf[..count]);
        if verdict.is_rejected() {
            return Ok(verdict);
        }
        taken += count as u64;
    }
    Err(Unchecked::Endless)
}
