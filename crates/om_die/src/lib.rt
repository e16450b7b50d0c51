//! Reads the entries of `.debug_info`, which describe the functions, variables and types of a
//! program: DWARF 4, sections 2 and 7.5, with the versions 2 and 3.
//!
//! A unit of another version is skipped and counted. DWARF's 64-bit format is refused. Nothing here
//! says what an entry means.
#![tactic(auto)]

mod abbreviation;
mod abbreviation_table;
mod abbreviation_tables;
mod attribute;
mod attribute_form;
mod attribute_value;
mod attributes;
mod constants;
mod context;
mod declaration;
mod die;
mod entries;
mod fault;
mod fields;
mod head;
mod laws;
mod range_lists;
mod settling;
mod skipped;
mod targets;
mod unit;
mod unit_list;
mod unit_reader;
mod unit_sections;

pub use attribute::AttrValue;
pub use constants::{
    DW_AT_ABSTRACT_ORIGIN, DW_AT_HIGH_PC, DW_AT_LOW_PC, DW_AT_NAME, DW_AT_RANGES,
    DW_AT_SPECIFICATION, DW_AT_TYPE, DW_TAG_LEXICAL_BLOCK, DW_TAG_SUBPROGRAM,
};
pub use die::Die;
pub use fault::DieFault;
pub use laws::{
    depths_of_entries, each_form, one_list_of_attributes, one_reading, one_table, one_value,
    refused_for_good, units_or_refusal,
};
pub use range_lists::read_ranges;
pub use unit::{Unit, Units};
pub use unit_reader::read_units;
