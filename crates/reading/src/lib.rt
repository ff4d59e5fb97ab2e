// Rows and entries as the calculation of values reads them out of the columns (pass_3.rs).
#![tactic(auto)]

pub mod entries;
pub mod stretches;
pub mod turns;
