// The rules of an instance: of the head, and behind it those of its kind.
ghost use Rattle.std.specs.Prelude.{◌≡◌, List, [], length, true};
ghost use Rattle.decision_model.specs.declared.instance.Instance.{Instance};
ghost use Rattle.decision_model.specs.Valid.{IsValid};
ghost use Rattle.value_cert.specs.Grammar.{has_numbers};
ghost use Rattle.value_cert.specs.declared.line.CertLine.{CertLine};
ghost use Rattle.cert_check.specs.Answers.{AnswersLine};
ghost use Rattle.cert_check.specs.Meaning.{IsTyped};
ghost use Rattle.cert_check.specs.Tables.{cell_count, sum_count};

use crate::average::AverageCheck;
use crate::finite::FiniteCheck;
use crate::kind_rules::KindRules;
use crate::lots::LotsCheck;
use crate::network::NetworkCheck;
use crate::news::NewsCheck;
use crate::serial::SerialCheck;
use decision_model::Instance;
use value_cert::{CertLine, Heading};

/// The rules of one kind.
#[derive(Drop)]
pub(crate) enum AnyKind<'a> {
    News(NewsCheck<'a>),
    Lots(LotsCheck<'a>),
    Finite(FiniteCheck<'a>),
    Average(AverageCheck<'a>),
    Serial(SerialCheck<'a>),
    Network(NetworkCheck),
}

// An answer by the rules of whichever kind.
macro_rules! of_kind {
    ($check:expr, $rules:ident => $answer:expr) => {
        match $check {
            AnyKind::News($rules) => $answer,
            AnyKind::Lots($rules) => $answer,
            AnyKind::Finite($rules) => $answer,
            AnyKind::Average($rules) => $answer,
            AnyKind::Serial($rules) => $answer,
            AnyKind::Network($rules) => $answer,
        }
    };
}

impl<'a> AnyKind<'a> {
    ghost use Rattle.cert_check.specs.Kinds.{KnowsAny};

    // The rules of the instance's kind, behind no line.
    fn new(instance: &'a Instance, cells: &'a mut [i128], sums: &'a mut [u128]) -> AnyKind<'a>
        requires valid { IsValid instance.now }
        requires cells { length cells.old ≡ cell_count instance.now }
        requires sums { length sums.old ≡ sum_count instance.now }
        ensures knows { KnowsAny result instance.now [] }
        ensures typed { IsTyped instance.now }
    {
        match instance {
            Instance::News(newsvendor) => AnyKind::News(NewsCheck::new(newsvendor)),
            Instance::Lots(lots) => AnyKind::Lots(LotsCheck::new(lots, cells)),
            Instance::Finite(finite) => AnyKind::Finite(FiniteCheck::new(finite, cells, sums)),
            Instance::Average(average) => AnyKind::Average(AverageCheck::new(average, cells, sums)),
            Instance::Serial(serial) => AnyKind::Serial(SerialCheck::new(serial, cells)),
            Instance::Network(_) => AnyKind::Network(NetworkCheck),
        }
    }
}

impl<'a> KindRules for AnyKind<'a> {
    ghost use Rattle.cert_check.specs.Kinds.{KnowsAny};

    ghost knows = { KnowsAny };

    fn feed(&mut self, line: &CertLine) -> Option<u32> {
        of_kind!(self, rules => rules.feed(line))
    }
}

/// The rules of an instance.
#[derive(Drop)]
pub(crate) struct KindCheck<'a> {
    heading: Heading,
    rules: AnyKind<'a>,
}

impl<'a> KindCheck<'a> {
    ghost use Rattle.cert_check.specs.Kinds.{KnowsKind};

    /// The rules of the instance, behind no line.
    pub(crate) fn new(
        instance: &'a Instance,
        cells: &'a mut [i128],
        sums: &'a mut [u128],
    ) -> KindCheck<'a>
        requires valid { IsValid instance.now }
        requires cells { length cells.old ≡ cell_count instance.now }
        requires sums { length sums.old ≡ sum_count instance.now }
        ensures knows { KnowsKind result instance.now [] }
        ensures typed { IsTyped instance.now }
    {
        KindCheck {
            heading: Heading::of(instance),
            rules: AnyKind::new(instance, cells, sums),
        }
    }

    /// Takes a line that may stand behind those so far, which broke no rule: the least rule from 2 on that it breaks.
    pub(crate) fn feed(&mut self, line: &CertLine) -> Option<u32>
        requires { has_numbers line.now ≡ true }
        ensures { (instance : Instance) (before : List CertLine) → KnowsKind self.old instance before →
            AnswersLine (KnowsKind self.new) instance before line.now result }
    {
        if !self.heading.allows(line) {
            return Some(2);
        }
        self.rules.feed(line)
    }
}
