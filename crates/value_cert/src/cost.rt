// The cost that a solve prints.
ghost use Rattle.std.specs.Prelude.{◌≡◌, ◌≤◌, ◌^◌, pos, sum};
ghost use Rattle.fraction128.specs.Reduced.{lowest_num, lowest_den};
ghost use Rattle.decision_model.specs.Valid.{IsValid};
ghost use Rattle.value_cert.specs.Meaning.{Certifies};
ghost use Rattle.value_cert.specs.PrintedCost.{printed_num, printed_den};
ghost use Rattle.value_cert.specs.Texts.{HasText};

use crate::cert::Cert;
use crate::lots::LotCert;
use crate::{average, finite, serial};
use decision_model::Instance;
use fraction128::Frac;
use newsvendor::{NewsCert, Newsvendor};

// The cost of a level, over the sum of the weights.
fn level_cost(newsvendor: &Newsvendor, cert: &NewsCert) -> Frac
    requires { cert.now.cost ≤ 2 ^ 120 }
    ensures num { result.num ≡ lowest_num (pos cert.now.cost) (sum newsvendor.now.law) }
    ensures den { result.den ≡ lowest_den (pos cert.now.cost) (sum newsvendor.now.law) }
{
    Frac::new(cert.cost as i128, newsvendor.law.total())
}

// The cost of a plan.
fn plan_cost(cert: &LotCert) -> Frac
    requires { cert.now.cost ≤ 2 ^ 120 }
    ensures num { result.num ≡ pos cert.now.cost }
    ensures den { result.den ≡ 1 }
{
    Frac::whole(cert.cost as i128)
}

/// The cost that a solve prints of an instance and its certificate, in lowest terms: of a newsvendor the certificate's
/// cost over the sum of the law's weights, of a lot plan its cost, of a finite horizon the value of the start in the first
/// period over the sum of weights and the discount's denominator, once for each period (and the sum of weights once more a
/// period of the lead time), of an average cost itself, of a serial system the echelons' values of the start in the first
/// period, added up, over the sum of weights and the discount's denominator, once for each period.
pub fn cost_of(instance: &Instance, cert: &Cert) -> Frac
    requires valid { IsValid instance.now }
    requires certified { Certifies instance.now cert.now }
    requires text { HasText cert.now }
    ensures num { result.num ≡ printed_num instance.now cert.now }
    ensures den { result.den ≡ printed_den instance.now cert.now }
{
    match (instance, cert) {
        (Instance::News(newsvendor), Cert::News(cert)) => level_cost(newsvendor, cert),
        (Instance::Lots(_), Cert::Lots(cert)) => plan_cost(cert),
        (Instance::Finite(finite), Cert::Finite(cert)) => finite::policy_cost(finite, cert),
        (Instance::Average(_), Cert::Average(cert)) => average::average_cost(cert),
        (Instance::Serial(serial), Cert::Serial(cert)) => serial::policy_cost(serial, cert),
        _ => Frac::whole(0),
    }
}
