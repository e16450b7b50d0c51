//! Tests of queries, tables and what surrounds them: the crates `om_base`, `om_io`, `om_token`, `om_parse`, `om_grammar`, `om_eval`, `om_value`, `om_table`, `om_type` and `om_typing`.
#![tactic(auto)]

#[cfg(test)]
mod base;
#[cfg(test)]
mod eval;
#[cfg(test)]
mod grammar;
#[cfg(test)]
mod io;
#[cfg(test)]
mod mistakes;
#[cfg(test)]
mod parse;
#[cfg(test)]
mod spelling;
#[cfg(test)]
mod table;
#[cfg(test)]
mod tokens;
#[cfg(test)]
mod typing;
#[cfg(test)]
mod unmoved;
#[cfg(test)]
mod values;
