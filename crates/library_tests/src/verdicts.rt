// Public calls of the checker that no command makes.
use cert_check::{Verdict, verdict};
use instance_json::read_instance;
use std::process::Abort;
use std::test::Fail;

// Demand is 0, 1, 2 or 3 with equal weights. Level 2 is the least of least cost, which is 6 over 4.
const BOOKSHOP: &str =
    "{\"kind\":\"newsvendor\",\"holding\":1,\"stockout\":3,\"demand\":{\"uniform\":[0,3]}}";

#[test]
fn a_whole_text_is_accepted(rt: HostRuntime) -> Result<(), Fail> {
    let Ok(shop) = read_instance(rt.alloc(), BOOKSHOP.as_bytes()) else {
        panic!(rt; "the bookshop isn't read");
    };
    let text = "certificate 1 newsvendor\nq 2\ncost 6\nend\n";
    let found = verdict(rt.alloc(), &shop, text.as_bytes())?;
    assert_eq!(rt; found, Verdict::Accepted);
    Ok(())
}
