// Networks with an order rule that the caller hands in.
use fraction128::Memory;
use node_state::HouseRule;
use std::alloc::{AllocError, Global};
use std::process::Abort;
use std::test::Fail;
use stock_cli::{Status, stock};
use stock_edge::{MemSink, MemSource, QuietFiles};

/// Orders four times the units seen in the period.
#[derive(Drop)]
struct QuadrupleRule {
    cap: u64,
}

impl HouseRule for QuadrupleRule {
    ghost use Rattle.std.specs.Prelude.{◌*◌, map};

    ghost meaning = { λ r. record { most = r.cap; replies = λ asks. map (λ a. 4 * a.seen) asks } };

    fn ask(&mut self, _position: i64, seen: u64) -> u64 {
        4 * seen
    }

    fn cap(&self) -> u64 {
        self.cap
    }
}

/// Orders ten units and the units seen in the period.
#[derive(Drop)]
struct TenMoreRule;

impl HouseRule for TenMoreRule {
    ghost use Rattle.std.specs.Prelude.{◌+◌, map};

    ghost meaning = { λ _. record { most = 10; replies = λ asks. map (λ a. 10 + a.seen) asks } };

    fn ask(&mut self, _position: i64, seen: u64) -> u64 {
        10 + seen
    }

    fn cap(&self) -> u64 {
        10
    }
}

// A shop whose customers demand 1, 2 and 3, and one whose customers demand 3 at once.
const RISING: &str =
    "{\"kind\":\"network\",\"periods\":3,\"nodes\":[{\"name\":\"shop\",\"initial\":5,\"holding\":1,\"stockout\":10,\"rule\":{\"house\":0,\"cap\":10},\"sources\":[{\"from\":\"outside\",\"lead\":1}],\"demand\":{\"trace\":[1,2,3]}}]}";

const SUDDEN: &str =
    "{\"kind\":\"network\",\"periods\":3,\"nodes\":[{\"name\":\"shop\",\"initial\":5,\"holding\":1,\"stockout\":10,\"rule\":{\"house\":0,\"cap\":10},\"sources\":[{\"from\":\"outside\",\"lead\":1}],\"demand\":{\"trace\":[3,2,1]}}]}";

// Shops whose customers demand one unit, in the first, the second and the third period.
const FIRST: &str =
    "{\"kind\":\"network\",\"periods\":3,\"nodes\":[{\"name\":\"shop\",\"initial\":5,\"holding\":1,\"stockout\":10,\"rule\":{\"house\":0,\"cap\":10},\"sources\":[{\"from\":\"outside\",\"lead\":1}],\"demand\":{\"trace\":[1,0,0]}}]}";

const LATER: &str =
    "{\"kind\":\"network\",\"periods\":3,\"nodes\":[{\"name\":\"shop\",\"initial\":5,\"holding\":1,\"stockout\":10,\"rule\":{\"house\":0,\"cap\":10},\"sources\":[{\"from\":\"outside\",\"lead\":1}],\"demand\":{\"trace\":[0,1,0]}}]}";

const LAST: &str =
    "{\"kind\":\"network\",\"periods\":3,\"nodes\":[{\"name\":\"shop\",\"initial\":5,\"holding\":1,\"stockout\":10,\"rule\":{\"house\":0,\"cap\":10},\"sources\":[{\"from\":\"outside\",\"lead\":1}],\"demand\":{\"trace\":[0,0,1]}}]}";

// One that keeps within the cap, also in a period in which its orders pause.
const STEADY: &str =
    "{\"kind\":\"network\",\"periods\":2,\"nodes\":[{\"name\":\"shop\",\"initial\":5,\"holding\":1,\"stockout\":10,\"rule\":{\"house\":0,\"cap\":10},\"sources\":[{\"from\":\"outside\",\"lead\":1}],\"demand\":{\"trace\":[1,2]}}],\"pauses\":[{\"node\":\"shop\",\"what\":\"orders\",\"from\":2,\"to\":2}]}";

// One that names the second rule, of which there is none.
const SECOND: &str =
    "{\"kind\":\"network\",\"periods\":1,\"nodes\":[{\"name\":\"shop\",\"initial\":5,\"holding\":1,\"rule\":{\"house\":1,\"cap\":10},\"sources\":[{\"from\":\"outside\",\"lead\":1}]}]}";

const TWO_PERIODS: &str =
    "period 1 node shop seen 1 order 4 made 0 stock 4 owed 0 due 0 cost 4\nperiod 2 node shop seen 2 order 8 made 4 stock 6 owed 0 due 0 cost 6\n";

const PAUSED: &str =
    "period 1 node shop seen 1 order 4 made 0 stock 4 owed 0 due 0 cost 4\nperiod 2 node shop seen 2 order 0 made 4 stock 6 owed 0 due 0 cost 6\ntotal 10\n";

const ONE_QUIET: &str = "period 1 node shop seen 0 order 10 made 0 stock 5 owed 0 due 0 cost 5\n";

const TWO_QUIET: &str =
    "period 1 node shop seen 0 order 10 made 0 stock 5 owed 0 due 0 cost 5\nperiod 2 node shop seen 0 order 10 made 10 stock 15 owed 0 due 0 cost 15\n";

fn no_memory(_: Memory) -> AllocError {
    AllocError
}

// Runs a network with one rule, and compares the status, the output and the message.
fn ends(
    rt: &impl Abort,
    alloc: Global,
    network: &str,
    rule: Box<dyn HouseRule>,
    status: Status,
    text: &str,
    message: &str,
) -> Result<(), Fail> {
    let mut words = Vec::new(alloc);
    words.push(String::from_str(alloc, "simulate")?)?;
    let mut input = MemSource::new(alloc, network.as_bytes(), 100, &[]).map_err(no_memory)?;
    let mut files = QuietFiles::new(alloc).map_err(no_memory)?;
    let mut out = MemSink::new(alloc, 100, &[], 1000).map_err(no_memory)?;
    let mut err = MemSink::new(alloc, 100, &[], 1000).map_err(no_memory)?;
    let mut rules: Vec<Box<dyn HouseRule>> = Vec::new(alloc);
    rules.push(rule)?;
    let ended = stock(
        alloc, &words, &mut input, &mut files, &mut out, &mut err, rules,
    );
    assert_eq!(rt; ended, status);
    assert!(rt; out.bytes() == text.as_bytes());
    assert!(rt; err.bytes() == message.as_bytes());
    Ok(())
}

// The network, the cap of the one rule that is handed in, the status, the output and the message.
#[test]
fn rules_of_the_callers_own(rt: HostRuntime) -> Result<(), Fail> {
    let rows = [
        (STEADY, 10, Status::Done, PAUSED, ""),
        (
            RISING,
            10,
            Status::House,
            TWO_PERIODS,
            "stock: node 1: house rule answered 12, its cap is 10\n",
        ),
        (
            SUDDEN,
            8,
            Status::House,
            "",
            "stock: node 1: house rule answered 12, its cap is 8\n",
        ),
        (
            RISING,
            11,
            Status::House,
            "",
            "stock: house rule 0: its cap is larger than the stated cap\n",
        ),
        (
            SECOND,
            10,
            Status::House,
            "",
            "stock: house rule 1: not given\n",
        ),
    ];
    let alloc = rt.alloc();
    for (network, cap, status, text, message) in rows {
        let rule: Box<dyn HouseRule> = Box::new(alloc, QuadrupleRule { cap })?;
        ends(&rt, alloc, network, rule, status, text, message)?;
    }
    Ok(())
}

// An answer of 11 in the first, the second or the third period, behind answers of the cap itself: the network, and the
// lines of the periods before.
#[test]
fn an_answer_past_the_cap_in_each_period(rt: HostRuntime) -> Result<(), Fail> {
    let message = "stock: node 1: house rule answered 11, its cap is 10\n";
    let alloc = rt.alloc();
    for (network, text) in [(FIRST, ""), (LATER, ONE_QUIET), (LAST, TWO_QUIET)] {
        let rule: Box<dyn HouseRule> = Box::new(alloc, TenMoreRule)?;
        ends(&rt, alloc, network, rule, Status::House, text, message)?;
    }
    Ok(())
}
