// What objects are, what runs on them (item.rs), and the codes of the sheet.
#![tactic(auto)]

pub mod categories;
pub mod codes;
pub mod kinds;
pub mod locations;
pub mod states;
