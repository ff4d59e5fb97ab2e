// Source rows: what entries leave in list 5, each at its place (`Source` of pass_3.rs).
#![tactic(auto)]

// What a run goes by: the room of list 5, and whether source rows are recorded.
#[derive(Clone, Copy)]
pub struct Recording {
    pub room: u32,
    pub recording: bool,
}

// How many source rows a row has now, and how many there are of all rows.
#[derive(Clone, Copy)]
pub struct SourceCounts {
    pub own: u32,
    pub used: u32,
}

pub mod marks;
pub mod notes;
pub mod plan;
pub mod rows;
