//! Scripts read from bytes.
#![tactic(auto)]

mod blocks;
mod laws;
mod parser;
mod part_error;
mod parts;
mod reader;
mod reading;
pub mod worked;

pub use laws::{
    blocks_are_made, bytes_spell_one, canonical_text_spells, faults_are_exact,
    faults_of_parts_are_exact, parts_are_in_order, parts_spell_one, printed_is_parsed_again,
    spelled_is_in_order,
};
pub use parser::{MOST_BYTES, parse};
pub use part_error::PartError;
pub use parts::parse_parts;
