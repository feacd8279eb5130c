// The newsvendor among the kinds. Each is valid by its type, and has neither grid nor width number.
use crate::kinds::Kind;
use crate::rules::KindRules;
use newsvendor::Newsvendor;

impl KindRules for Newsvendor {
    ghost use Rattle.decision_model.specs.News.{news_rules};

    ghost rules = { news_rules };

    fn kind(&self) -> Kind {
        Kind::News
    }

    fn grid_fits(&self) -> bool {
        true
    }

    fn width_ok(&self) -> bool {
        true
    }
}
