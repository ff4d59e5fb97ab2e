// The sheet (info.rs): header, records by value.
#![tactic(auto)]

pub mod header;
pub mod little_endian;
pub mod look_ups;
pub mod places;
pub mod records;
pub mod standing;
