//! Tests of writing instances and of reading them again. They stand here, since `instance_json` would be proved twice with
//! tests of its own. What is refused, and how, are cases of the built program.
#![tactic(auto)]

#[cfg(test)]
mod instances;
