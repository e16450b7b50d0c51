//! Tests of the instruction words, memory and the machine: the crates `om_isa`, `om_mem` and `om_step`.
#![tactic(auto)]

#[cfg(test)]
mod isa;
#[cfg(test)]
mod mem;
#[cfg(test)]
mod step;
#[cfg(test)]
mod step_vectors;
