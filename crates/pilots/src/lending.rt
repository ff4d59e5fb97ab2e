// What a pool has of each list, and where a pilot's rows lie in it.
ghost use Rattle.std.specs.Prelude.{◌≡◌, ◌<◌, IfOk};
ghost use Rattle.rules.specs.Pool.{pool_rooms};
ghost use Rattle.pilots.specs.Given.{lengths, parts_at, lending_of, LentParts, PoolTold};

use calculate::Outcome;
use columns::{PoolRooms, PoolStretches};
use pool::{BadPool, part_end, part_start, pool};

// How long the pool's columns are.
#[derive(Clone, Copy)]
pub struct Lengths {
    pub collected: usize,
    pub collected_values: usize,
    pub rows: usize,
    pub bases: usize,
    pub values: usize,
    pub entries: usize,
    pub entry_values: usize,
    pub plain: usize,
    pub sources: usize,
    pub source_values: usize,
}

// Where a pilot's rows of each list begin, and where they end.
#[derive(Clone, Copy)]
pub struct Parts {
    pub collected: usize,
    pub collected_end: usize,
    pub rows: usize,
    pub rows_end: usize,
    pub entries: usize,
    pub entries_end: usize,
    pub plain: usize,
    pub plain_end: usize,
    pub sources: usize,
    pub sources_end: usize,
}

// A list's room in the pool is its shortest column.
fn rooms_of(n: Lengths) -> PoolRooms
    ensures defined { result ≡ pool_rooms (lengths n) }
{
    [
        n.collected.min(n.collected_values),
        n.rows.min(n.bases.min(n.values)),
        n.entries.min(n.entry_values),
        n.plain,
        n.sources.min(n.source_values),
    ]
}

// Where a pilot's rows lie; an empty stretch is lent from 0.
fn parts_of(stretches: &PoolStretches, p: usize) -> Parts
    requires a_pilot { p < 16 }
    ensures defined { result ≡ parts_at stretches.now p }
{
    Parts {
        collected: part_start(stretches, p, 0),
        collected_end: part_end(stretches, p, 0),
        rows: part_start(stretches, p, 1),
        rows_end: part_end(stretches, p, 1),
        entries: part_start(stretches, p, 2),
        entries_end: part_end(stretches, p, 2),
        plain: part_start(stretches, p, 3),
        plain_end: part_end(stretches, p, 3),
        sources: part_start(stretches, p, 4),
        sources_end: part_end(stretches, p, 4),
    }
}

// POOL with its place, or where the pilot's rows lie.
pub fn lend(stretches: &PoolStretches, n: Lengths, pilot: u32) -> Result<Parts, BadPool>
    ensures defined { result ≡ lending_of stretches.now pilot (lengths n) }
    ensures inside { IfOk result (λ at. LentParts pilot (lengths n) at) }
{
    pool(stretches, &rooms_of(n), pilot)?;
    Ok(parts_of(stretches, pilot as usize))
}

// 12 POOL with its place: no list has a row.
pub fn pool_answer(place: u32) -> Outcome
    ensures told { PoolTold place result }
{
    Outcome {
        number: 12,
        place: place as u64,
        collected: 0,
        rows: 0,
        entries: 0,
        plain: 0,
        sources: 0,
    }
}
