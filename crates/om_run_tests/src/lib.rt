//! Tests of logs and runs: the crates `om_log`, `om_run` and `om_record`.
#![tactic(auto)]

#[cfg(test)]
mod log;
#[cfg(test)]
mod record;
#[cfg(test)]
mod run;
