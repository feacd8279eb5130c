// Networks, for which there is no certificate.
use crate::kind_rules::KindRules;
use value_cert::CertLine;

/// The rules of a network, which isn't solved: each line breaks rule 2.
#[derive(Drop)]
pub(crate) struct NetworkCheck;

impl KindRules for NetworkCheck {
    ghost use Rattle.cert_check.specs.NetworkChecks.{KnowsNetwork};

    ghost knows = { KnowsNetwork };

    fn feed(&mut self, _line: &CertLine) -> Option<u32> {
        Some(2)
    }
}
