//! Tests of the top call, which would be proved twice with tests of its own, and of a few public calls below it.
#![tactic(auto)]

#[cfg(test)]
mod brackets;
#[cfg(test)]
mod commands;
#[cfg(test)]
mod faults;
#[cfg(test)]
mod house_rules;
#[cfg(test)]
mod network_rows;
#[cfg(test)]
mod network_runs;
#[cfg(test)]
mod verdicts;
