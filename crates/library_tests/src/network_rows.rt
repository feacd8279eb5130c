// The lines of a period of two nodes, as they are printed.
ghost use Rattle.std.specs.Prelude.{◌≡◌, IfOk, length};

use decision_model::{Demand, Items, Network, NodeSpec, Rule};
use fraction128::Text;
use network_sim::{NodeLine, Row};
use report_text::{push_total, row_text};
use std::alloc::Global;
use std::test::Fail;

// A node of this name.
fn node(alloc: Global, name: &str) -> Result<NodeSpec, Fail> {
    let mut text = Text::new(alloc);
    text.push(name.as_bytes())?;
    Ok(NodeSpec {
        name: text,
        initial: 0,
        holding: 1,
        stockout: 10,
        rule: Rule::Base { level: 5 },
        sources: Items::new(Vec::new(alloc)),
        demand: Demand::Nobody,
    })
}

// A network of two nodes, of which the names alone count here.
fn two_nodes(alloc: Global) -> Result<Network, Fail>
    ensures { IfOk result (λ network. length network.nodes ≡ 2) }
{
    let shop = node(alloc, "shop")?;
    let depot = node(alloc, "depot")?;
    Ok(Network {
        periods: 3,
        seed: None,
        nodes: Items::new(vec![in alloc; shop, depot]?),
        pauses: Items::new(Vec::new(alloc)),
    })
}

// A row of these two lines.
fn row(alloc: Global, shop: NodeLine, depot: NodeLine) -> Result<Row, Fail>
    ensures { IfOk result (λ row. length row.lines.items ≡ 2) }
{
    Ok(Row {
        lines: vec![in alloc; shop, depot]?,
    })
}

#[test]
fn period_of_two_nodes(rt: HostRuntime) -> Result<(), Fail> {
    let alloc = rt.alloc();
    let network = two_nodes(alloc)?;
    let shop = NodeLine {
        seen: 4,
        order: 3,
        made: 2,
        stock: 0,
        owed: 2,
        due: 0,
        cost: 20,
    };
    let depot = NodeLine {
        seen: 3,
        order: 0,
        made: 1,
        stock: 7,
        owed: 0,
        due: 5,
        cost: 7,
    };
    let row = row(alloc, shop, depot)?;
    let mut text = row_text(alloc, &network, 12, &row)?;
    push_total(&mut text, 27)?;
    let lines =
        "period 12 node shop seen 4 order 3 made 2 stock 0 owed 2 due 0 cost 20\nperiod 12 node depot seen 3 order 0 made 1 stock 7 owed 0 due 5 cost 7\ntotal 27\n";
    assert_eq!(rt; text.bytes(), lines.as_bytes());
    Ok(())
}
