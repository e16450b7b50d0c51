//! Tests of executables and their debugging information: the crates `om_claims`, `om_elf`, `om_die`, `om_line`, `om_cfi`, `om_loc`, `om_names`, `om_image`, `om_info` and `om_view`.
#![tactic(auto)]

#[cfg(test)]
mod claims;
#[cfg(test)]
mod die;
#[cfg(test)]
mod die_forms;
#[cfg(test)]
mod elf;
#[cfg(test)]
mod frames;
#[cfg(test)]
mod image;
#[cfg(test)]
mod info;
#[cfg(test)]
mod line_tables;
#[cfg(test)]
mod lines;
#[cfg(test)]
mod local_cells;
#[cfg(test)]
mod locals;
#[cfg(test)]
mod made;
#[cfg(test)]
mod names;
#[cfg(test)]
mod nested_lines;
#[cfg(test)]
mod places;
#[cfg(test)]
mod variables;
#[cfg(test)]
mod view;
