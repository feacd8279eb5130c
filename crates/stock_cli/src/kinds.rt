// The kinds of instance, as what a command is about.
ghost use Rattle.std.specs.Prelude.{◌≡◌, ◌≢◌, ◌⊎◌, ◌≤◌};
ghost use Rattle.stock_cli.specs.declared.certificates.Unchecked.{Unchecked};

use crate::any_cert::AnyCert;
use crate::certificates::{Unchecked, check_from};
use crate::inputs::{Input, missing_fault, read_fault};
use crate::subject::Subject;
use average_cost::solve_average;
use cert_check::{TextCheck, Verdict, cells_of, sums_of};
use decision_model::{Instance, kind};
use finite_ss::solve_finite;
use fraction128::{Memory, Text};
use instance_json::{InstanceErr, read_instance};
use newsvendor::solve_newsvendor;
use report_text::{Fault, report};
use serial_echelon::solve_serial;
use std::alloc::Global;
use stock_edge::{Files, Source};
use value_cert::Cert;
use wagner_whitin::solve_lots;

/// The kinds of instance that `read_instance` reads.
pub struct Kinds;

// The fault of an input of which there is no verdict. None is so long that it can't be counted: that stands for want of
// memory.
pub(crate) fn fault_of(alloc: Global, name: &str, wrong: Unchecked) -> Fault
    ensures memory { wrong ≡ Unchecked.Endless → result ≡ Fault.Memory }
    ensures missing { wrong ≡ Unchecked.Missing → (result ≡ Fault.Memory) ⊎ (result ≡ Fault.MissingFile name.now) }
    ensures failed { wrong ≡ Unchecked.Failed → (result ≡ Fault.Memory) ⊎ (result ≡ Fault.ReadFault name.now) }
{
    match wrong {
        Unchecked::Missing => missing_fault(alloc, name),
        Unchecked::Failed => read_fault(alloc, name),
        Unchecked::Endless => Fault::Memory,
    }
}

impl Subject for Kinds {
    type Item = Instance;

    type Cert = Cert;

    ghost use Rattle.stock_cli.specs.KindSubject.{kind_subject};

    ghost subject = { kind_subject };

    fn read(alloc: Global, bytes: &[u8]) -> Result<Instance, InstanceErr> {
        read_instance(alloc, bytes)
    }

    fn solvable(instance: &Instance) -> Result<(), Fault> {
        match instance {
            Instance::News(_) => Ok(()),
            Instance::Lots(_) => Ok(()),
            Instance::Finite(_) => Ok(()),
            Instance::Average(_) => Ok(()),
            Instance::Serial(_) => Ok(()),
            Instance::Network(_) => Err(Fault::NotThisCommand(kind(instance))),
        }
    }

    fn solve(alloc: Global, instance: &Instance) -> Result<Cert, Memory> {
        match instance {
            Instance::News(newsvendor) => Ok(Cert::News(solve_newsvendor(newsvendor))),
            Instance::Lots(lots) => Ok(Cert::Lots(solve_lots(alloc, lots)?)),
            Instance::Finite(finite) => Ok(Cert::Finite(solve_finite(alloc, finite)?)),
            Instance::Average(average) => Ok(Cert::Average(solve_average(alloc, average)?)),
            Instance::Serial(serial) => Ok(Cert::Serial(solve_serial(alloc, serial)?)),
            Instance::Network(_) => unreachable!(),
        }
    }

    fn report(alloc: Global, instance: &Instance, cert: &Cert) -> Result<Text, Memory> {
        report(alloc, instance, cert)
    }

    fn wrap(cert: Cert) -> AnyCert {
        AnyCert::Kind(cert)
    }

    fn verdict<I: Source, F: Files>(
        alloc: Global,
        instance: &Instance,
        from: &Input<'_>,
        input: &mut I,
        files: &mut F,
    ) -> Result<Verdict, Fault> {
        let Ok(mut cells) = vec![in alloc; 0i128; cells_of(instance)] else {
            return Err(Fault::Memory);
        };
        let Ok(mut sums) = vec![in alloc; 0u128; sums_of(instance)] else {
            return Err(Fault::Memory);
        };
        let mut check = TextCheck::new(instance, &mut cells, &mut sums);
        match check_from(from, input, files, &mut check) {
            Ok(verdict) => Ok(verdict),
            Err(wrong) => Err(fault_of(alloc, from.name(), wrong)),
        }
    }
}
