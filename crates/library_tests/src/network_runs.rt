// Networks that run as they are written.
ghost use Rattle.std.specs.Prelude.{IfOk, map};
ghost use Rattle.decision_model.specs.Network.{IsValidNetwork};
ghost use Rattle.stock_cli.specs.Runs.{StandsForSome};

use decision_model::{Instance, Network};
use fraction128::Memory;
use instance_json::read_instance;
use network_sim::{Row, Sim};
use node_state::HouseRule;
use std::alloc::{AllocError, Global};
use std::test::Fail;
use stock_cli::{RunErr, run_rows};
use stock_edge::MemSink;

const SHOP: &str =
    "{\"kind\":\"network\",\"periods\":3,\"nodes\":[{\"name\":\"shop\",\"initial\":5,\"holding\":1,\"stockout\":10,\"rule\":{\"base\":5},\"sources\":[{\"from\":\"outside\",\"lead\":1}],\"demand\":{\"trace\":[2,4,0]}}]}";

const TABLE: &str =
    "period 1 node shop seen 2 order 2 made 0 stock 3 owed 0 due 0 cost 3\nperiod 2 node shop seen 4 order 4 made 2 stock 1 owed 0 due 0 cost 1\nperiod 3 node shop seen 0 order 0 made 4 stock 5 owed 0 due 0 cost 5\ntotal 9\n";

const FIRST_PERIOD: &str = "period 1 node shop seen 2 order 2 made 0 stock 3 owed 0 due 0 cost 3\n";

const TWO_PERIODS: &str =
    "period 1 node shop seen 2 order 2 made 0 stock 3 owed 0 due 0 cost 3\nperiod 2 node shop seen 4 order 4 made 2 stock 1 owed 0 due 0 cost 1\n";

fn no_memory(_: Memory) -> AllocError {
    AllocError
}

fn shop(alloc: Global) -> Result<Network, Fail>
    ensures { IfOk result IsValidNetwork }
{
    match read_instance(alloc, SHOP.as_bytes()) {
        Ok(Instance::Network(net)) => Ok(net),
        _ => Err(Fail::from("no network")),
    }
}

fn simulator(alloc: Global, net: &Network) -> Result<Sim, Fail>
    requires { IsValidNetwork net.now }
    ensures { IfOk result (λ sim. StandsForSome net.now 0 sim (map (λ b. (⟦<dyn HouseRule as HouseRule>⟧ b.vtable).meaning b.value) sim.rules.items)) }
{
    match Sim::new(alloc, net, Vec::new(alloc)) {
        Ok(sim) => Ok(sim),
        Err(_) => Err(Fail::from("no simulator")),
    }
}

// The writes that fail, the periods that are left, the text, and the answer.
#[test]
fn a_period_is_written_before_the_next_one_runs(rt: HostRuntime) -> Result<(), Fail> {
    let rows: [(&[u64], u32, &str, Result<(), RunErr>); 4] = [
        (&[], 0, TABLE, Ok(())),
        (&[1], 2, "", Err(RunErr::Write)),
        (&[3], 0, TWO_PERIODS, Err(RunErr::Write)),
        (&[2], 1, FIRST_PERIOD, Err(RunErr::Write)),
    ];
    let alloc = rt.alloc();
    for (fails, left, text, answer) in rows {
        let net = shop(alloc)?;
        let mut sim = simulator(alloc, &net)?;
        let mut row = Row::new(alloc, &net).map_err(no_memory)?;
        let mut out = MemSink::new(alloc, 1000, fails, 1000).map_err(no_memory)?;
        let ended = run_rows(alloc, &net, &mut sim, &mut row, &mut out);
        assert!(rt; ended == answer);
        assert_eq!(rt; sim.periods_left(), left);
        assert!(rt; out.bytes() == text.as_bytes());
    }
    Ok(())
}
