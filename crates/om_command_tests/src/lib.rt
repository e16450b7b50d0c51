//! Tests of the top call: the crate `om_command`.
#![tactic(auto)]

#[cfg(test)]
mod cases;
#[cfg(test)]
mod world;
