// Runs in which each read, and then each write, fails in turn.
use crate::commands::{
    Ended, Given, LOTS, LOTS_CERTIFICATE, NETWORK, NEWSVENDOR, REPORT, TABLE, run,
};
use std::alloc::Global;
use std::process::Abort;
use std::test::Fail;
use stock_cli::Status;

// A run, and its text where nothing fails.
#[derive(Clone, Copy)]
struct Whole<'a> {
    given: Given<'a>,
    text: &'a str,
}

// Three runs that read standard input, and one that reads two files.
fn runs() -> [Whole<'static>; 4] {
    [
        Whole {
            given: Given::new(&["solve"], NEWSVENDOR),
            text: REPORT,
        },
        Whole {
            given: Given::new(&["certify"], LOTS),
            text: LOTS_CERTIFICATE,
        },
        Whole {
            given: Given::new(&["check", "i", "c"], ""),
            text: "accepted\n",
        },
        Whole {
            given: Given::new(&["simulate"], NETWORK),
            text: TABLE,
        },
    ]
}

fn reads_of(ended: &Ended) -> u64 {
    u64::from(ended.input_reads)
        .saturating_add(u64::from(ended.instance_reads))
        .saturating_add(u64::from(ended.certificate_reads))
}

// A run whose read of this number fails.
fn run_with_failing_read(alloc: Global, given: Given<'_>, number: u64) -> Result<Ended, Fail> {
    let fails = [number];
    let failing = Given {
        failing_reads: &fails,
        failing_files: &fails,
        ..given
    };
    run(alloc, failing)
}

// A run whose write of this number fails.
fn run_with_failing_write(alloc: Global, given: Given<'_>, number: u64) -> Result<Ended, Fail> {
    let fails = [number];
    let failing = Given {
        failing_writes: &fails,
        ..given
    };
    run(alloc, failing)
}

// The run met no fault.
fn is_whole(rt: &impl Abort, ended: &Ended, text: &str) {
    assert_eq!(rt; ended.status, Status::Done);
    assert!(rt; ended.out.as_str() == text);
    assert!(rt; ended.err.as_str() == "");
}

// The run was cut short with this status, behind a front of its text.
fn is_cut(rt: &impl Abort, ended: &Ended, status: Status, text: &str) {
    assert_eq!(rt; ended.status, status);
    assert!(rt; text.starts_with(ended.out.as_str()));
}

// Lets the reads fail one after the other, until none is left that could. No text is written before all is read.
fn fail_reads(rt: &impl Abort, alloc: Global, whole: Whole<'_>) -> Result<(), Fail> {
    for number in 1..1000 {
        let ended = run_with_failing_read(alloc, whole.given, number)?;
        if reads_of(&ended) < number {
            is_whole(rt, &ended, whole.text);
            return Ok(());
        }
        is_cut(rt, &ended, Status::ReadFault, "");
        assert_eq!(rt; reads_of(&ended), number);
    }
    Err(Fail::from("reads without end"))
}

// Lets the writes fail one after the other, until none is left that could. Each write before takes a byte at least, and a
// piece at most.
fn fail_writes(rt: &impl Abort, alloc: Global, whole: Whole<'_>) -> Result<(), Fail> {
    for number in 1..1000 {
        let ended = run_with_failing_write(alloc, whole.given, number)?;
        if u64::from(ended.writes) < number {
            is_whole(rt, &ended, whole.text);
            return Ok(());
        }
        is_cut(rt, &ended, Status::WriteFault, whole.text);
        assert_eq!(rt; u64::from(ended.writes), number);
        let written = ended.out.len() as u64;
        assert!(rt; written >= number - 1);
        assert!(rt; written <= (number - 1).saturating_mul(whole.given.out_piece as u64));
    }
    Err(Fail::from("writes without end"))
}

// The run with inputs and output in pieces of so many bytes.
fn in_pieces<'a>(whole: Whole<'a>, piece: usize) -> Whole<'a> {
    Whole {
        given: Given {
            piece,
            out_piece: piece,
            ..whole.given
        },
        ..whole
    }
}

#[test]
fn each_read_fails_in_turn(rt: HostRuntime) -> Result<(), Fail> {
    for whole in runs() {
        for piece in [1, 7, 4096] {
            fail_reads(&rt, rt.alloc(), in_pieces(whole, piece))?;
        }
    }
    Ok(())
}

#[test]
fn each_write_fails_in_turn(rt: HostRuntime) -> Result<(), Fail> {
    for whole in runs() {
        for piece in [1, 7, 4096] {
            fail_writes(&rt, rt.alloc(), in_pieces(whole, piece))?;
        }
    }
    Ok(())
}

// A run ends alike whether its message is written or not.
fn ends_alike(
    rt: &impl Abort,
    alloc: Global,
    given: Given<'_>,
    status: Status,
) -> Result<(), Fail> {
    let told = run(alloc, given)?;
    let silent = Given {
        failing_messages: &[1],
        ..given
    };
    let untold = run(alloc, silent)?;
    assert_eq!(rt; told.status, status);
    assert_eq!(rt; untold.status, status);
    assert!(rt; told.out.as_str() == untold.out.as_str());
    assert!(rt; untold.err.as_str() == "");
    Ok(())
}

#[test]
fn messages_that_fail(rt: HostRuntime) -> Result<(), Fail> {
    for whole in runs() {
        let unread = Given {
            failing_reads: &[2],
            failing_files: &[2],
            ..whole.given
        };
        ends_alike(&rt, rt.alloc(), unread, Status::ReadFault)?;
        let unwritten = Given {
            failing_writes: &[1],
            ..whole.given
        };
        ends_alike(&rt, rt.alloc(), unwritten, Status::WriteFault)?;
        let refused = Given {
            words: &["solve", "x"],
            ..whole.given
        };
        ends_alike(&rt, rt.alloc(), refused, Status::Input)?;
    }
    Ok(())
}

// A first line without a word is rejected as soon as it has ended, so the failing second read is never come to.
#[test]
fn a_certificate_is_read_no_further_than_its_rejection(rt: HostRuntime) -> Result<(), Fail> {
    let mut certificate = String::new(rt.alloc());
    certificate.push_str("\n")?;
    for _ in 0..5000 {
        certificate.push_str(" ")?;
    }
    let long = Given {
        certificate: Some(certificate.as_str()),
        failing_files: &[2],
        ..Given::new(&["check", "-", "c"], NEWSVENDOR)
    };
    let ended = run(rt.alloc(), long)?;
    assert_eq!(rt; ended.status, Status::Rejected);
    assert!(rt; ended.out.as_str() == "rejected line 1 rule 1\n");
    assert!(rt; ended.err.as_str() == "");
    assert_eq!(rt; ended.certificate_reads, 1);
    Ok(())
}
