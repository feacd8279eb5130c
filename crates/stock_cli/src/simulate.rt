// The command `simulate`.
ghost use Rattle.std.specs.Prelude.{◌≡◌, IfOk, IfErr};
ghost use Rattle.decision_model.specs.Network.{IsValidNetwork};
ghost use Rattle.decision_model.specs.Valid.{IsValid};
ghost use Rattle.stock_cli.specs.Causes.{HasNoAnswer};
ghost use Rattle.stock_cli.specs.Endings.{kind_outcome};

use crate::asked::KindQuestion;
use decision_model::{Instance, Network, kind};
use report_text::Fault;

/// The network that is to run.
pub fn simulate(instance: Instance) -> Result<Network, Fault>
    requires { IsValid instance }
    ensures network { IfOk result (λ net. instance ≡ Instance.Network net) }
    ensures valid { IfOk result IsValidNetwork }
    ensures none { IfErr result (HasNoAnswer (kind_outcome KindQuestion.Simulate instance)) }
{
    match instance {
        Instance::Network(net) => Ok(net),
        solved => Err(Fault::NotThisCommand(kind(&solved))),
    }
}
