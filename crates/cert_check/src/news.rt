// The rules of the newsvendor.
ghost use Rattle.std.specs.Prelude.{◌≡◌, ◌≤◌, pos, ◌≤ℤ◌, unsigned_abs, length, true, Some, None, if◌then◌else◌};
ghost use Rattle.newsvendor.specs.Item.{IsNewsvendor};
ghost use Rattle.value_cert.specs.Grammar.{has_numbers};
ghost use Rattle.value_cert.specs.NewsRules.{weights_upto, reaches_ratio, is_first_level, level_rule, cost_rule};
ghost use Rattle.value_cert.specs.Numbers.{is_natural};

use crate::kind_rules::KindRules;
use newsvendor::{Newsvendor, weighted_cost};
use value_cert::CertLine;

/// A check of a newsvendor's certificate.
#[derive(Drop)]
pub(crate) struct NewsCheck<'a> {
    newsvendor: &'a Newsvendor,
    // The level that the lines so far name, 0 before they do.
    level: u32,
    ghost in_range: { level ≤ 10000 },
}

// The sum of the weights up to a level, of which none is below 0.
fn weights_up_to(newsvendor: &Newsvendor, level: i128) -> u128
    ensures weights { result ≡ weights_upto newsvendor.now.law level }
    ensures small { result ≤ 1000000000 }
{
    if level < 0 {
        return 0;
    }
    match u32::try_from(level) {
        Ok(level) => newsvendor.law.upto(level),
        Err(_) => newsvendor.law.total(),
    }
}

// Whether the weights up to a level are at least stockout/(holding + stockout) of all weights.
fn has_ratio(newsvendor: &Newsvendor, level: i128) -> bool
    ensures short { length newsvendor.now.law ≤ 10001 }
    ensures ratio { result ≡ reaches_ratio newsvendor.now level }
{
    let ratio = u128::from(newsvendor.holding) + u128::from(newsvendor.stockout);
    u128::from(newsvendor.stockout) * newsvendor.law.total()
        <= ratio * weights_up_to(newsvendor, level)
}

// Whether the level below doesn't reach the ratio, or there is none.
fn is_first(newsvendor: &Newsvendor, level: i128) -> bool
    requires { is_natural level ≡ true }
    ensures { result ≡ is_first_level newsvendor.now level }
{
    level == 0 || !has_ratio(newsvendor, level - 1)
}

fn broken_by_level(newsvendor: &Newsvendor, level: i128) -> Option<u32>
    requires { is_natural level ≡ true }
    ensures rule { result ≡ level_rule newsvendor.now level }
    ensures in_range { result ≡ None → level ≤ℤ pos 10000 }
{
    if !has_ratio(newsvendor, level) {
        return Some(3);
    }
    if !is_first(newsvendor, level) {
        return Some(4);
    }
    None
}

fn broken_by_cost(newsvendor: &Newsvendor, level: u32, cost: i128) -> Option<u32>
    requires { level ≤ 10000 }
    ensures { result ≡ cost_rule newsvendor.now level cost }
{
    if cost == weighted_cost(newsvendor, level) as i128 {
        None
    } else {
        Some(5)
    }
}

impl<'a> NewsCheck<'a> {
    ghost use Rattle.value_cert.specs.NewsRules.{named_level, news_rule};

    pub(crate) fn new(newsvendor: &'a Newsvendor) -> NewsCheck<'a>
        ensures newsvendor { result.newsvendor.now ≡ newsvendor.now }
        ensures level { result.level ≡ 0 }
        // What its type says of it.
        ensures typed { IsNewsvendor newsvendor.now }
    {
        let _holding = newsvendor.holding;
        NewsCheck {
            newsvendor,
            level: 0,
        }
    }

    fn take_level(&mut self, level: i128) -> Option<u32>
        requires { is_natural level ≡ true }
        ensures newsvendor { self.new.newsvendor.now ≡ self.old.newsvendor.now }
        ensures rule { result ≡ level_rule self.old.newsvendor.now level }
        ensures level { result ≡ None → self.new.level ≡ unsigned_abs level }
    {
        if let Some(rule) = broken_by_level(self.newsvendor, level) {
            return Some(rule);
        }
        self.level = level as u32;
        None
    }

    // Takes a line that may stand behind those so far: the least rule from 2 on that it breaks.
    fn take(&mut self, line: &CertLine) -> Option<u32>
        requires { has_numbers line.now ≡ true }
        ensures newsvendor { self.new.newsvendor.now ≡ self.old.newsvendor.now }
        ensures rule { result ≡ news_rule self.old.newsvendor.now self.old.level line.now }
        ensures level { result ≡ None → self.new.level ≡ named_level self.old.level line.now }
    {
        match *line {
            CertLine::Level(level) => self.take_level(level),
            CertLine::Cost(cost) => broken_by_cost(self.newsvendor, self.level, cost),
            _ => None,
        }
    }
}

impl<'a> KindRules for NewsCheck<'a> {
    ghost use Rattle.cert_check.specs.NewsChecks.{KnowsNews};

    ghost knows = { KnowsNews };

    fn feed(&mut self, line: &CertLine) -> Option<u32> {
        self.take(line)
    }
}
