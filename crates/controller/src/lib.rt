// Controllers: tables of entries.
#![tactic(auto)]

pub mod entry;
pub mod place;
pub mod table;
