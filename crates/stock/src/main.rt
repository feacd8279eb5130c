//! `stock`: exact inventory policies from the command line.
#![tactic(auto)]

mod rules;

use node_state::HouseRule;
use rules::{StepRule, WindowRule};
use std::io::{Error, ErrorKind};
use std::process::ExitCode;
use std::{env, io};
use stock_cli::stock;
use stock_edge::{RealFiles, RealSink, RealSource};

/// The exit code where memory is wanting before the top call runs; that of `Status::Memory`.
const NO_MEMORY: u8 = 7;

/// The exit code where the system refuses the words for another cause; the top call never gives it.
const NO_WORDS: u8 = 9;

fn code_of_fault(error: &Error) -> u8 {
    if error.kind() == ErrorKind::OutOfMemory {
        NO_MEMORY
    } else {
        NO_WORDS
    }
}

fn main(rt: HostRuntime) -> ExitCode {
    let args = match env::args(&rt) {
        Ok(args) => args,
        Err(error) => return ExitCode::from(code_of_fault(&error)),
    };
    let mut words = Vec::new(rt.alloc());
    for word in args.skip(1) {
        if words.push(word).is_err() {
            return ExitCode::from(NO_MEMORY);
        }
    }
    let mut rules: Vec<Box<dyn HouseRule>> = Vec::new(rt.alloc());
    let Ok(window) = Box::new(rt.alloc(), WindowRule::new()) else {
        return ExitCode::from(NO_MEMORY);
    };
    let Ok(step) = Box::new(rt.alloc(), StepRule::new()) else {
        return ExitCode::from(NO_MEMORY);
    };
    if rules.push(window).is_err() || rules.push(step).is_err() {
        return ExitCode::from(NO_MEMORY);
    }
    let mut input = RealSource::new(rt.reader());
    let mut files = RealFiles::new(&rt);
    let mut out = RealSink::new(io::writer(&rt));
    let mut err = RealSink::new(rt.stderr());
    let status = stock(
        rt.alloc(),
        &words,
        &mut input,
        &mut files,
        &mut out,
        &mut err,
        rules,
    );
    ExitCode::from(status.code())
}
