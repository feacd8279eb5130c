// Instances that are read, and the texts that they are written as.
use instance_json::{read_instance, write_instance};
use std::alloc::Global;
use std::process::Abort;

// The text says an instance that is written as this text.
fn is_written(rt: &impl Abort, alloc: Global, text: &str, written: &str) {
    let Ok(instance) = read_instance(alloc, text.as_bytes()) else {
        panic!(rt; "{text} is refused");
    };
    match write_instance(alloc, &instance) {
        Ok(bytes) => assert!(rt; bytes.as_slice() == written.as_bytes(), "{text}"),
        Err(_) => panic!(rt; "no memory"),
    }
}

// Of a repeated key the last counts, and absent keys have their defaults.
#[test]
fn reads_and_writes(rt: HostRuntime) {
    for (text, written) in [
        (
            "{\"kind\":\"newsvendor\",\"holding\":9,\"stockout\":3,\"demand\":{\"points\":[[3,2],[0,1]]},\"holding\":1}",
            "{\"demand\":{\"points\":[[0,1],[3,2]]},\"holding\":1,\"kind\":\"newsvendor\",\"stockout\":3}",
        ),
        (
            "{\"kind\":\"newsvendor\",\"holding\":0,\"stockout\":1000000,\"demand\":{\"binomial\":[2,1,2]}}",
            "{\"demand\":{\"points\":[[0,1],[1,2],[2,1]]},\"holding\":0,\"kind\":\"newsvendor\",\"stockout\":1000000}",
        ),
        (
            "{\"kind\":\"lots\",\"demand\":[90,0,80],\"setup\":500,\"holding\":[2,1,3]}",
            "{\"demand\":[90,0,80],\"holding\":[2,1,3],\"kind\":\"lots\",\"setup\":[500,500,500],\"unit\":[0,0,0]}",
        ),
        (
            "{\"kind\":\"lots\",\"demand\":[10,0,20],\"setup\":[5,5,6],\"holding\":1,\"unit\":[0,1,2]}",
            "{\"demand\":[10,0,20],\"holding\":[1,1,1],\"kind\":\"lots\",\"setup\":[5,5,6],\"unit\":[0,1,2]}",
        ),
        (
            "{\"kind\":\"finite\",\"periods\":2,\"holding\":1,\"stockout\":3,\"demand\":{\"points\":[[0,1],[1,1]]},\"cap\":2,\"start\":2}",
            "{\"cap\":2,\"demand\":{\"points\":[[0,1],[1,1]]},\"discount\":[1,1],\"end_holding\":0,\"end_stockout\":0,\"holding\":1,\"kind\":\"finite\",\"lead\":0,\"periods\":2,\"setup\":0,\"start\":2,\"stockout\":3,\"unit\":0}",
        ),
        (
            "{\"kind\":\"finite\",\"periods\":1,\"lead\":1,\"setup\":7,\"unit\":2,\"holding\":1,\"stockout\":3,\"end_holding\":4,\"end_stockout\":5,\"discount\":[1,2],\"most\":6,\"total\":4,\"demand\":[{\"uniform\":[0,1]},{\"points\":[[1,1]]}],\"cap\":9,\"start\":-8}",
            "{\"cap\":9,\"demand\":[{\"points\":[[0,2],[1,2]]},{\"points\":[[1,4]]}],\"discount\":[1,2],\"end_holding\":4,\"end_stockout\":5,\"holding\":1,\"kind\":\"finite\",\"lead\":1,\"most\":6,\"periods\":1,\"setup\":7,\"start\":-8,\"stockout\":3,\"unit\":2}",
        ),
        (
            "{\"kind\":\"average\",\"setup\":1,\"holding\":1,\"stockout\":3,\"demand\":{\"points\":[[0,1],[1,1]]},\"floor\":0,\"cap\":1999,\"policy\":\"rQ\"}",
            "{\"cap\":1999,\"demand\":{\"points\":[[0,1],[1,1]]},\"floor\":0,\"holding\":1,\"kind\":\"average\",\"lead\":0,\"policy\":\"rQ\",\"setup\":1,\"stockout\":3}",
        ),
        (
            "{\"kind\":\"average\",\"holding\":1,\"stockout\":3,\"demand\":{\"uniform\":[0,2]},\"floor\":-2,\"cap\":-2}",
            "{\"cap\":-2,\"demand\":{\"points\":[[0,1],[1,1],[2,1]]},\"floor\":-2,\"holding\":1,\"kind\":\"average\",\"lead\":0,\"policy\":\"sS\",\"setup\":0,\"stockout\":3}",
        ),
        (
            "{\"kind\":\"serial\",\"periods\":2,\"holding\":[1,2],\"unit\":3,\"stockout\":4,\"total\":6,\"demand\":{\"points\":[[0,1],[1,1]]},\"cap\":2,\"start\":[2,2]}",
            "{\"cap\":2,\"demand\":{\"points\":[[0,3],[1,3]]},\"discount\":[1,1],\"holding\":[1,2],\"kind\":\"serial\",\"periods\":2,\"start\":[2,2],\"stockout\":4,\"unit\":[3,3]}",
        ),
        (
            "{\"kind\":\"serial\",\"periods\":2,\"holding\":[1,2],\"unit\":[0,8],\"stockout\":9,\"demand\":[{\"uniform\":[0,1]},{\"points\":[[1,1]]}],\"cap\":6,\"start\":[-1,3]}",
            "{\"cap\":6,\"demand\":[{\"points\":[[0,1],[1,1]]},{\"points\":[[1,2]]}],\"discount\":[1,1],\"holding\":[1,2],\"kind\":\"serial\",\"periods\":2,\"start\":[-1,3],\"stockout\":9,\"unit\":[0,8]}",
        ),
    ] {
        is_written(&rt, rt.alloc(), text, written);
        is_written(&rt, rt.alloc(), written, written);
    }
}

// A network, a network with a drawn demand, and one with a rule of the caller's own.
#[test]
fn reads_and_writes_networks(rt: HostRuntime) {
    for (text, written) in [
        (
            "{\"kind\":\"network\",\"periods\":2,\"seed\":7,\"nodes\":[{\"name\":\"shop\",\"initial\":5,\"holding\":1,\"stockout\":10,\"rule\":{\"min\":1,\"max\":5},\"sources\":[{\"from\":\"depot\",\"lead\":1},{\"from\":\"outside\",\"lead\":0,\"order_lead\":2}],\"demand\":{\"trace\":[2,4]}},{\"name\":\"depot\",\"initial\":3,\"holding\":1,\"rule\":{\"reorder\":-1,\"lot\":4},\"sources\":[{\"from\":\"outside\",\"lead\":2}]}],\"pauses\":[{\"node\":\"depot\",\"what\":\"receipts\",\"from\":1,\"to\":2}]}",
            "{\"kind\":\"network\",\"nodes\":[{\"demand\":{\"trace\":[2,4]},\"holding\":1,\"initial\":5,\"name\":\"shop\",\"rule\":{\"max\":5,\"min\":1},\"sources\":[{\"from\":\"depot\",\"lead\":1,\"order_lead\":0},{\"from\":\"outside\",\"lead\":0,\"order_lead\":2}],\"stockout\":10},{\"holding\":1,\"initial\":3,\"name\":\"depot\",\"rule\":{\"lot\":4,\"reorder\":-1},\"sources\":[{\"from\":\"outside\",\"lead\":2,\"order_lead\":0}],\"stockout\":0}],\"pauses\":[{\"from\":1,\"node\":\"depot\",\"to\":2,\"what\":\"receipts\"}],\"periods\":2,\"seed\":7}",
        ),
        (
            "{\"kind\":\"network\",\"periods\":2,\"seed\":0,\"nodes\":[{\"name\":\"a\",\"initial\":0,\"holding\":0,\"rule\":{\"base\":1},\"sources\":[{\"from\":\"outside\",\"lead\":1}],\"demand\":{\"binomial\":[2,1,2]}}]}",
            "{\"kind\":\"network\",\"nodes\":[{\"demand\":{\"points\":[[0,1],[1,2],[2,1]]},\"holding\":0,\"initial\":0,\"name\":\"a\",\"rule\":{\"base\":1},\"sources\":[{\"from\":\"outside\",\"lead\":1,\"order_lead\":0}],\"stockout\":0}],\"pauses\":[],\"periods\":2,\"seed\":0}",
        ),
        (
            "{\"kind\":\"network\",\"periods\":2,\"nodes\":[{\"name\":\"a\",\"initial\":0,\"holding\":0,\"rule\":{\"house\":1,\"cap\":9},\"sources\":[{\"from\":\"outside\",\"lead\":1}]}]}",
            "{\"kind\":\"network\",\"nodes\":[{\"holding\":0,\"initial\":0,\"name\":\"a\",\"rule\":{\"cap\":9,\"house\":1},\"sources\":[{\"from\":\"outside\",\"lead\":1,\"order_lead\":0}],\"stockout\":0}],\"pauses\":[],\"periods\":2}",
        ),
    ] {
        is_written(&rt, rt.alloc(), text, written);
        is_written(&rt, rt.alloc(), written, written);
    }
}
