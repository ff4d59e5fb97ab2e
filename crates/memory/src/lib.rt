// The memory of values while they are calculated: its laws are in proofs/; what becomes of a pile and of a limit is in `apply`.
#![tactic(auto)]

use columns::{AttributeRow, EntryRow, Limits, States, Stretches, TablePairs};

// What values are calculated from: the book, the states, and lists 2 and 3, with where each object's rows are and which attributes may have a limit.
#[derive(Clone, Copy)]
pub struct ReadColumns<'a> {
    pub book: &'a [u8],
    pub pairs: &'a TablePairs,
    pub states: &'a States,
    pub stretches: &'a Stretches,
    pub limits: &'a Limits,
    pub rows: &'a [AttributeRow],
    pub bases: &'a [f64],
    pub entries: &'a [EntryRow],
    pub entry_values: &'a [f64],
}

pub mod apply;
