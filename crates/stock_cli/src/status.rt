// How a run ends.
ghost use Rattle.std.specs.Prelude.{◌≡◌};
ghost use Rattle.stock_cli.specs.Status.{code_of, status_of};

use instance_json::InstanceFault;
use report_text::Fault;

/// How a run ended.
#[derive(Clone, Copy, Debug, PartialEq, Eq)]
pub enum Status {
    /// The whole output was written.
    Done,
    /// A certificate was rejected.
    Rejected,
    /// The words name no command that runs.
    Words,
    /// The instance is missing, too long or no instance that the command takes.
    Input,
    /// An input couldn't be read.
    ReadFault,
    /// Standard output couldn't be written.
    WriteFault,
    /// The instance's numbers are too wide.
    Width,
    /// Memory was refused.
    Memory,
    /// A house rule is missing, or answered more than its cap.
    House,
}

impl Status {
    /// The process's exit code, 0 to 8 in the order of the variants.
    pub fn code(self) -> u8
        ensures { result ≡ code_of self }
    {
        match self {
            Status::Done => 0,
            Status::Rejected => 1,
            Status::Words => 2,
            Status::Input => 3,
            Status::ReadFault => 4,
            Status::WriteFault => 5,
            Status::Width => 6,
            Status::Memory => 7,
            Status::House => 8,
        }
    }
}

/// The status of a run that is refused for this fault.
pub fn status_for(fault: &Fault) -> Status
    ensures { result ≡ status_of fault.now }
{
    match fault {
        Fault::MissingFile(_) => Status::Input,
        Fault::TooLong => Status::Input,
        Fault::Instance(InstanceFault::Width) => Status::Width,
        Fault::Instance(_) => Status::Input,
        Fault::NotThisCommand(_) => Status::Input,
        Fault::ReadFault(_) => Status::ReadFault,
        Fault::WriteFault => Status::WriteFault,
        Fault::Memory => Status::Memory,
        Fault::NoRule(_) => Status::House,
        Fault::RuleShared(_) => Status::House,
        Fault::RuleCap(_) => Status::House,
        Fault::RuleOver(_) => Status::House,
        _ => Status::Words,
    }
}
