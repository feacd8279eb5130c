// Certificates of any kind.
use crate::average::AverageCert;
use crate::finite::FiniteCert;
use crate::lots::LotCert;
use crate::serial::SerialCert;
use newsvendor::NewsCert;

/// A certificate of one of the kinds.
#[derive(Drop)]
pub enum Cert {
    News(NewsCert),
    Lots(LotCert),
    Finite(FiniteCert),
    Average(AverageCert),
    Serial(SerialCert),
}
