//! Lemmas of brackets of an average cost, without code. Lines that break no rule bound the cost of every number of periods;
//! the solver's lower bound is the greatest and its upper bound the least, its lines break none, and all numbers that it
//! and the check come to fit.
#![tactic(auto)]
