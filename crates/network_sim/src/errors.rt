// Why a network can't be run, and why a run ends early.
ghost use Rattle.std.specs.Prelude.{◌≡◌};

use fraction128::Memory;
use std::alloc::AllocError;
use thiserror::Error;

/// Why there is no simulator of a network.
#[derive(Clone, Copy, Debug, PartialEq, Eq, Error)]
pub enum SimErr {
    /// A node names the rule of the caller's own at this index, and none was handed in there.
    #[error("house rule {0}: not given")]
    NoRule(u32),
    /// Two nodes name the rule at this index.
    #[error("house rule {0}: named twice")]
    RuleShared(u32),
    /// The rule at this index may answer more than its node says.
    #[error("house rule {0}: its cap is larger than the stated cap")]
    RuleCap(u32),
    /// Memory was refused.
    #[error("out of memory")]
    Memory,
}

impl From<AllocError> for SimErr {
    ghost use Rattle.network_sim.specs.declared.errors.SimErr.TheVariants.{Memory};

    ghost from_gives = { λ _ e. e ≡ Memory };

    fn from(_refused: AllocError) -> SimErr {
        SimErr::Memory
    }
}

impl From<Memory> for SimErr {
    ghost use Rattle.network_sim.specs.declared.errors.SimErr.TheVariants.{Memory};

    ghost from_gives = { λ _ e. e ≡ Memory };

    fn from(_refused: Memory) -> SimErr {
        SimErr::Memory
    }
}

/// A rule of the caller's own answered more than its cap, which ends the run.
#[derive(Clone, Copy, Debug, PartialEq, Eq)]
pub struct RuleOver {
    /// The node whose rule it is, from 1.
    pub node: u32,
    pub answer: u64,
    /// The rule's cap when the simulator was made.
    pub cap: u64,
}
