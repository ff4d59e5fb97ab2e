// 12 POOL: whether a pilot has a stretch, and whether every pilot's stretches lie in the pool and apart.
#![tactic(auto)]

ghost use Rattle.std.specs.Prelude.{◌≡◌, ◌<◌};
ghost use Rattle.laws.specs.Lists.{some?, from};
ghost use Rattle.rules.specs.Pool.{pool_bad};
ghost use Rattle.rules.specs.Pool as rule;
ghost use Rattle.pool.specs.Pooled.{pooled_of, start_of, part_end, stretch_at, astray_at};

use columns::{LISTS, PILOTS, POOL_FIRST, POOL_LENGTH, PoolRooms, PoolStretch, PoolStretches};

// POOL, and its place.
#[derive(Clone, Copy, Debug, PartialEq, Eq)]
pub struct BadPool {
    pub place: u32,
}

// The row past a stretch's last.
pub fn end_of(s: PoolStretch) -> usize
    ensures defined { result ≡ rule.end_of s }
{
    s[POOL_FIRST] as usize + s[POOL_LENGTH] as usize
}

// Whether a stretch has a row outside a list's room.
pub fn leaves(room: usize, s: PoolStretch) -> bool
    ensures defined { result ≡ rule.leaves room s }
{
    0 < s[POOL_LENGTH] && room < end_of(s)
}

// Whether two stretches have a row in common.
pub fn overlaps(s: PoolStretch, t: PoolStretch) -> bool
    ensures defined { result ≡ rule.overlaps s t }
{
    let start = s[POOL_FIRST].max(t[POOL_FIRST]) as usize;
    let end = end_of(s).min(end_of(t));
    start < end
}

// Whether a pilot's stretch of a list overlaps a lower pilot's.
fn overlaps_lower(stretches: &PoolStretches, p: usize, list: usize) -> bool
    requires a_pilot { p < 16 }
    requires a_list { list < 5 }
    ensures defined { let ss = stretches.now in
        result ≡ some? (λ q. rule.overlaps (stretch_at ss p list) (stretch_at ss q list)) (from 0 p) }
{
    let own = stretches[p][list];
    (0..p).any(|q| overlaps(own, stretches[q][list]))
}

// Whether a pilot's stretch of a list leaves the pool or overlaps a lower pilot's.
fn astray_in(stretches: &PoolStretches, rooms: &PoolRooms, p: usize, list: usize) -> bool
    requires a_pilot { p < 16 }
    requires a_list { list < 5 }
    ensures defined { result ≡ astray_at rooms.now stretches.now p list }
{
    leaves(rooms[list], stretches[p][list]) || overlaps_lower(stretches, p, list)
}

// Whether one of a pilot's stretches leaves the pool or overlaps a lower pilot's.
fn astray(stretches: &PoolStretches, rooms: &PoolRooms, p: usize) -> bool
    requires a_pilot { p < 16 }
    ensures defined { result ≡ rule.astray rooms.now stretches.now p }
{
    (0..LISTS).any(|list| astray_in(stretches, rooms, p, list))
}

// Whether a pilot has a row in one of the lists.
fn has_row(stretches: &PoolStretches, p: usize) -> bool
    requires a_pilot { p < 16 }
    ensures defined { result ≡ rule.has_row stretches.now p }
{
    stretches[p].iter().any(|s| 0 < s[POOL_LENGTH])
}

// Whether a number is a pilot's that has a row.
#[tactic(auto, unfolding(rules::specs::Pool::seated))]
fn seated(stretches: &PoolStretches, pilot: u32) -> bool
    ensures defined { result ≡ rule.seated stretches.now pilot }
{
    let p = pilot as usize;
    p < PILOTS && has_row(stretches, p)
}

// POOL with its place, or that the pilot's stretches may be lent.
pub fn pool(stretches: &PoolStretches, rooms: &PoolRooms, pilot: u32) -> Result<(), BadPool>
    ensures defined { result ≡ pooled_of (pool_bad rooms.now stretches.now pilot) }
{
    if !seated(stretches, pilot) {
        return Err(BadPool { place: pilot });
    }
    for p in 0..PILOTS {
        if astray(stretches, rooms, p) {
            return Err(BadPool { place: p as u32 });
        }
    }
    Ok(())
}

// Where a stretch is lent from: an empty one from 0.
fn lent_start(s: PoolStretch) -> usize
    ensures defined { result ≡ start_of s }
{
    if s[POOL_LENGTH] == 0 {
        return 0;
    }
    s[POOL_FIRST] as usize
}

// Where it ends.
fn lent_end(s: PoolStretch) -> usize
    ensures defined { result ≡ part_end s }
{
    if s[POOL_LENGTH] == 0 {
        return 0;
    }
    end_of(s)
}

// Where a pilot's rows of a list are lent from.
pub fn part_start(stretches: &PoolStretches, p: usize, list: usize) -> usize
    requires a_pilot { p < 16 }
    requires a_list { list < 5 }
    ensures defined { result ≡ start_of (stretch_at stretches.now p list) }
{
    lent_start(stretches[p][list])
}

// Where they end.
pub fn part_end(stretches: &PoolStretches, p: usize, list: usize) -> usize
    requires a_pilot { p < 16 }
    requires a_list { list < 5 }
    ensures defined { result ≡ part_end (stretch_at stretches.now p list) }
{
    lent_end(stretches[p][list])
}
