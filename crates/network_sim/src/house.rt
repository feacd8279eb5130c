// Rules of the caller's own: which a network can be run with, and what they answer.
ghost use Rattle.std.specs.Prelude.{◌≡◌, ◌≢◌, ℕ, ◌^◌, ◌<◌, ◌≤◌, List, ◌∷◌, length, map, None, Some, OnOk, IfOk, IfErr};
ghost use Rattle.std.specs.Int.RustNames.{unsigned_abs};
ghost use Rattle.network_model.specs.Nodes.{node_at};
ghost use Rattle.node_state.specs.Handed.{Ask, Handed, rule_at, reply_to};
ghost use Rattle.network_sim.specs.Houses.{is_house, is_named, rule_refusal, rules_refusal};
ghost use Rattle.network_sim.specs.Asks.{HasReplied};

use crate::errors::SimErr;
use network_model::{NodeSpec, Rule};
use node_state::HouseRule;
use std::alloc::{AllocError, Global};

fn ask_box(rule: &mut Box<dyn HouseRule>, position: i64, seen: u64) -> u64
    requires position { unsigned_abs position ≤ 10 ^ 13 }
    requires seen { seen ≤ 10 ^ 12 }
    ensures { (rest : List Ask) → ((⟦<dyn HouseRule as HouseRule>⟧ rule.old.vtable).meaning rule.old.value).replies (record { position = position; seen = seen } ∷ rest) ≡ result ∷ ((⟦<dyn HouseRule as HouseRule>⟧ rule.new.vtable).meaning rule.new.value).replies rest }
{
    rule.ask(position, seen)
}

/// Asks the rule at an index.
pub fn ask_rule(rules: &mut [Box<dyn HouseRule>], index: usize, position: i64, seen: u64) -> u64
    requires rule { index < length rules.old }
    requires position { unsigned_abs position ≤ 10 ^ 13 }
    requires seen { seen ≤ 10 ^ 12 }
    ensures all { length rules.new ≡ length rules.old }
    ensures answer { result ≡ reply_to (rule_at (map meaning rules.old) index) (record { position = position; seen = seen }) }
    ensures asked { HasReplied (rule_at (map meaning rules.old) index) (rule_at (map meaning rules.new) index) (record { position = position; seen = seen }) }
    ensures others { (k : ℕ) → k ≢ index → rule_at (map meaning rules.new) k ≡ rule_at (map meaning rules.old) k }
{
    ask_box(&mut rules[index], position, seen)
}

fn cap_of_box(rule: &Box<dyn HouseRule>) -> u64
    ensures { result ≡ ((⟦<dyn HouseRule as HouseRule>⟧ rule.now.vtable).meaning rule.now.value).most }
{
    rule.cap()
}

// The most that the rule at an index may answer.
fn cap_of(rules: &[Box<dyn HouseRule>], index: usize) -> u64
    requires { index < length rules.now }
    ensures { result ≡ (rule_at (map meaning rules.now) index).most }
{
    cap_of_box(&rules[index])
}

/// The most that each rule may answer.
pub fn caps_of(alloc: Global, rules: &[Box<dyn HouseRule>]) -> Result<Vec<u64>, AllocError>
    ensures { IfOk result (λ caps. caps.items ≡ map (λ (r : Handed). r.most) (map meaning rules.now)) }
{
    let mut caps = Vec::with_capacity(alloc, rules.len())?;
    for index in 0..rules.len() {
        caps.push(cap_of(rules, index))?;
    }
    Ok(caps)
}

// Whether one of the first nodes has the rule at an index.
fn is_named(nodes: &[NodeSpec], index: u32, count: usize) -> bool
    requires { count ≤ length nodes.now }
    ensures { result ≡ is_named nodes.now index count }
{
    for i in 0..count {
        if is_house(&nodes[i].rule, index) {
            return true;
        }
    }
    false
}

fn is_house(rule: &Rule, index: u32) -> bool
    ensures { result ≡ is_house index rule.now }
{
    match rule {
        Rule::House {
            index: other,
            cap: _,
        } => *other == index,
        Rule::Base { .. } | Rule::MinMax { .. } | Rule::Lot { .. } | Rule::Echelon { .. } => false,
    }
}

// Refuses a node's rule that isn't there, that an earlier node has, or that may answer more than the node says.
fn check_rule(nodes: &[NodeSpec], i: usize, rules: &[Box<dyn HouseRule>]) -> Result<(), SimErr>
    requires { i < length nodes.now }
    ensures fit { OnOk result (rule_refusal nodes.now (map meaning rules.now) i (node_at nodes.now i).rule ≡ None) }
    ensures refused { IfErr result (λ e. rule_refusal nodes.now (map meaning rules.now) i (node_at nodes.now i).rule ≡ Some e) }
{
    let Rule::House { index, cap } = nodes[i].rule else {
        return Ok(());
    };
    if index as usize >= rules.len() {
        return Err(SimErr::NoRule(index));
    }
    if is_named(nodes, index, i) {
        return Err(SimErr::RuleShared(index));
    }
    if cap_of(rules, index as usize) > cap {
        return Err(SimErr::RuleCap(index));
    }
    Ok(())
}

/// Refuses rules that a network can't be run with, by the first node that they don't fit.
pub fn check_rules(nodes: &[NodeSpec], rules: &[Box<dyn HouseRule>]) -> Result<(), SimErr>
    ensures fit { OnOk result (rules_refusal nodes.now (map meaning rules.now) ≡ None) }
    ensures refused { IfErr result (λ e. rules_refusal nodes.now (map meaning rules.now) ≡ Some e) }
{
    for i in 0..nodes.len() {
        check_rule(nodes, i, rules)?;
    }
    Ok(())
}
