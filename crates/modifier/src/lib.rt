// modifier: codes, causes, moves.
#![tactic(auto)]

pub mod causes;
pub mod codes;
pub mod moves;
