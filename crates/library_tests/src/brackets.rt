// Public calls of brackets, where memory is ample.
use bracket_cost::solve_bracket;
use flat_check::{BracketCheck, BracketTextCheck, Verdict};
use instance_json::read_wide;
use report_text::bracket_report;
use std::process::Abort;
use std::test::Fail;
use value_cert::FlatLine;

// Nothing is asked for twice as often as one unit, and there is one position: a third of a unit is owed.
const SHELF: &str =
    "{\"kind\":\"average\",\"holding\":1,\"stockout\":1,\"demand\":{\"points\":[[0,2],[1,1]]},\"floor\":0,\"cap\":0}";

const REPORT: &str =
    "kind average\ns -1 S 0\nlower 333333/1000000\nupper 166667/500000\nspan 0\nbracketed\n";

const CERTIFICATE: &str = "certificate 1 bracket\ng 333333 333334\ns -1 0\np 0 0 0\nend\n";

#[test]
fn a_bracket_is_found_told_and_accepted(rt: HostRuntime) -> Result<(), Fail> {
    let Ok(shelf) = read_wide(rt.alloc(), SHELF.as_bytes()) else {
        panic!(rt; "the shelf isn't read");
    };
    let cert = solve_bracket(rt.alloc(), &shelf)?;
    let report = bracket_report(rt.alloc(), &shelf, &cert)?;
    assert_eq!(rt; report.bytes(), REPORT.as_bytes());
    let mut text = BracketTextCheck::new(rt.alloc(), &shelf)?;
    text.push(CERTIFICATE.as_bytes());
    assert_eq!(rt; text.end(), Verdict::Accepted);
    let mut lines = BracketCheck::new(rt.alloc(), &shelf)?;
    assert_eq!(rt; lines.feed(&FlatLine::Head), Verdict::Going);
    Ok(())
}
