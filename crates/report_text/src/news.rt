// The lines of newsvendors.
ghost use Rattle.std.specs.Prelude.{◌≡◌, ◌++◌, OnOk};
ghost use Rattle.report_text.specs.Demand.{demand_text_of};
ghost use Rattle.report_text.specs.News.{level_lines};

use crate::laws::push_law;
use crate::pieces::push_numbered;
use decision_model::Instance;
use fraction128::{Memory, Text};
use newsvendor::{NewsCert, Newsvendor};

// Appends the order-up-to level.
pub fn push_policy(out: &mut Text, cert: &NewsCert) -> Result<(), Memory>
    ensures { OnOk result (out.new ≡ out.old ++ level_lines cert.now.q) }
{
    push_numbered(out, "kind newsvendor\norder-up-to ", cert.q, "\n")
}

// Appends the law of the one period.
pub fn push_demand(out: &mut Text, newsvendor: &Newsvendor) -> Result<(), Memory>
    ensures { OnOk result (out.new ≡ out.old ++ demand_text_of (Instance.News newsvendor.now)) }
{
    push_law(out, &newsvendor.law)
}
