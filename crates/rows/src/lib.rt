// Dispatch (pass_2.rs, second half): the rows of one object.
#![tactic(auto)]

pub mod entries;
pub mod object_lists;
pub mod rows;
pub mod spread;
