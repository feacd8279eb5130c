// What a command is about.
ghost use Rattle.std.specs.Prelude.{◌≡◌, ◌≢◌, ◌≤◌, Ok, None, OnOk, IfOk, IfErr};
ghost use Rattle.std.specs.Io.KnownBytes.{IsAtEnd};
ghost use Rattle.json_forms.specs.Faults.{Gives};
ghost use Rattle.stock_cli.specs.AnyCerts.{any_text, AnyHasText};
ghost use Rattle.stock_cli.specs.Causes.{counts_of, FailedAt, NotRead};
ghost use Rattle.stock_cli.specs.Checks.{IsItemVerdict, Reaches};
ghost use Rattle.stock_cli.specs.Inputs.{origin_of, content_of};
ghost use Rattle.stock_cli.specs.Subjects.{SubjectOf, IsSolved, IsUnsolved};

use crate::any_cert::AnyCert;
use crate::inputs::Input;
use cert_check::Verdict;
use fraction128::{Memory, Text};
use instance_json::InstanceErr;
use report_text::Fault;
use std::alloc::Global;
use stock_edge::{Files, Source};

/// What a command is about: how its items are read, solved and reported, and their certificates written and checked.
pub trait Subject {
    /// What an input says.
    type Item: Drop;

    type Cert: Drop;

    ghost subject: { SubjectOf Self.Item Self.Cert };

    /// The item that bytes say.
    fn read(alloc: Global, bytes: &[u8]) -> Result<Self::Item, InstanceErr>
        ensures value { Gives result (subject.reads bytes.now) }
        ensures valid { IfOk result subject.IsValid };

    /// That an item is solved, or the fault that says it isn't.
    fn solvable(item: &Self::Item) -> Result<(), Fault>
        ensures solved { OnOk result (IsSolved subject item.now) }
        ensures none { IfErr result (IsUnsolved subject item.now) };

    /// The certificate of an item that is solved.
    fn solve(alloc: Global, item: &Self::Item) -> Result<Self::Cert, Memory>
        requires valid { subject.IsValid item.now }
        requires solved { IsSolved subject item.now }
        ensures solved { IfOk result (λ cert. subject.solved item.now ≡ Ok cert) }
        ensures certifies { IfOk result (subject.Certifies item.now) }
        ensures has_text { IfOk result subject.HasText };

    /// What `solve` prints.
    fn report(alloc: Global, item: &Self::Item, cert: &Self::Cert) -> Result<Text, Memory>
        requires valid { subject.IsValid item.now }
        requires certified { subject.Certifies item.now cert.now }
        requires has_text { subject.HasText cert.now }
        ensures { IfOk result (λ text. text ≡ subject.report item.now cert.now) };

    /// A certificate among those of all that commands are about.
    fn wrap(cert: Self::Cert) -> AnyCert
        ensures text { any_text result ≡ subject.text cert }
        ensures has_text { subject.HasText cert → AnyHasText result };

    /// The verdict on the certificate of an input against an item. It is read no further than to the piece of the first
    /// line that is rejected.
    fn verdict<I: Source, F: Files>(
        alloc: Global,
        item: &Self::Item,
        from: &Input<'_>,
        input: &mut I,
        files: &mut F,
    ) -> Result<Verdict, Fault>
        requires { subject.IsValid item.now }
        ensures verdict { IfOk result (IsItemVerdict subject item.now (content_of (I.left input.old) (F.held files.old) (origin_of from.now))) }
        ensures end { IfOk result (λ verdict. verdict ≡ Verdict.Accepted → origin_of from.now ≡ None → IsAtEnd (I.left input.new)) }
        ensures none { IfErr result (NotRead
            (FailedAt (counts_of (I.faults input.old) (I.faults input.new) (F.faults files.old) (F.faults files.new)) (origin_of from.now))
            (content_of (I.left input.old) (F.held files.old) (origin_of from.now))) }
        ensures short { IfErr result (λ fault. fault ≢ Fault.TooLong) }
        ensures reach { origin_of from.now ≡ None → Reaches (subject.rules item.now) (I.left input.old) (I.left input.new) }
        ensures later_input { I.faults input.old ≤ I.faults input.new }
        ensures later_files { F.faults files.old ≤ F.faults files.new }
        ensures same_input { origin_of from.now ≢ None → input.new ≡ input.old }
        ensures same_files { origin_of from.now ≡ None → files.new ≡ files.old };
}
