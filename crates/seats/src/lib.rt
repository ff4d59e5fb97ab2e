// Pilots come and go: what is decided of a hall, and what the free stretches become.
#![tactic(auto)]

ghost use Rattle.std.specs.Prelude.{◌≡◌, not, [], ◌∷◌, ◌++◌, map, ◌+◌, ◌-◌, ◌≤◌, ◌<◌, length, take, drop, get_or, replicate};
ghost use Rattle.laws.specs.Lists.{every?, some?, from};
ghost use Rattle.free_table.specs.Table.{empty};
ghost use Rattle.seats.specs.Tiling.{inside, lengths};
ghost use Rattle.seats.specs.Tests.{clear_from, clear_of, put_at};
ghost use Rattle.seats.specs.Seats.{same_pair, same_five, apart, table_good, seat_of, cut_first, freed, admit, leave};
ghost use Rattle.seats.specs.Plan.{touches_at, first_from, place_in, shut_of, place_of};
ghost use Rattle.seats.specs.Told.{hall_of, refusal_told, done_told, answered, left_answered, roomed, Ready, ReadyFor, cut_table, freed_table};

use columns::{LISTS, PILOTS, POOL_FIRST, POOL_LENGTH, PoolStretch, PoolStretches};
use free_table::{EMPTY, FREE, FreeTable, Stretch};
use pool::{leaves, overlaps};

// What a caller is told: a number, its place, and how many free stretches there are now.
#[repr(C)]
#[derive(Clone, Copy)]
pub struct Seat {
    pub number: u64,
    pub place: u64,
    pub free: u64,
}

// Why a pilot is not admitted, or does not leave.
#[derive(Clone, Copy, Debug, PartialEq, Eq)]
pub enum SeatRefusal {
    Table,
    Pilot(u32),
    Length(u32),
    Pool(u32),
}

impl SeatRefusal {
    // What a caller is told of it: nothing is written, and the count is the one given.
    pub fn told(self, count: u32) -> Seat
        ensures defined { result ≡ refusal_told self count }
    {
        let (number, place) = match self {
            SeatRefusal::Table => (18, 0),
            SeatRefusal::Pilot(p) => (13, p),
            SeatRefusal::Length(p) => (14, p),
            SeatRefusal::Pool(p) => (12, p),
        };
        Seat {
            number,
            place: place as u64,
            free: count as u64,
        }
    }
}

// What a caller is told where it is done.
pub fn done(free: usize) -> Seat
    ensures defined { result ≡ done_told free }
{
    Seat {
        number: 0,
        place: 0,
        free: free as u64,
    }
}

// How many free stretches there are once a leaver's is one, and the stretch that it had.
#[derive(Clone, Copy)]
pub struct Left {
    pub free: usize,
    pub stretch: Stretch,
}

// The free stretches and the sixteen pilots'.
const ALL: usize = FREE + PILOTS;

// A stretch as the pool's test has it.
fn pair(s: Stretch) -> PoolStretch
    ensures defined { result ≡ s.start ∷ s.length ∷ [] }
{
    [s.start, s.length]
}

// A pilot's stretch: that of list 1.
fn seat_of(stretches: &PoolStretches, p: usize) -> Stretch
    requires a_pilot { p < 16 }
    ensures defined { result ≡ seat_of stretches.now p }
{
    let own = stretches[p][0];
    Stretch {
        start: own[POOL_FIRST],
        length: own[POOL_LENGTH],
    }
}

// ---- 18 TABLE

// Whether two pairs are the same stretch, as the definition has it (same_pair).
fn same_pair(s: PoolStretch, t: PoolStretch) -> bool
    ensures defined { result ≡ same_pair s t }
{
    (s[POOL_FIRST] == t[POOL_FIRST]) & (s[POOL_LENGTH] == t[POOL_LENGTH])
}

// Whether a pilot's five pairs are the same.
fn same_five(stretches: &PoolStretches, p: usize) -> bool
    requires a_pilot { p < 16 }
    ensures defined { result ≡ same_five stretches.now p }
{
    let [first, second, third, fourth, fifth] = stretches[p];
    same_pair(first, second)
        & same_pair(first, third)
        & same_pair(first, fourth)
        & same_pair(first, fifth)
}

// Whether some pilot's five pairs differ.
fn differ(stretches: &PoolStretches) -> bool
    ensures defined { result ≡ some? (λ p. not (same_five stretches.now p)) (from 0 16) }
{
    (0..PILOTS).any(|p| !same_five(stretches, p))
}

// Whether the i-th of n stretches does not end before the next begins.
fn touches(t: FreeTable, n: usize, i: usize) -> bool
    requires one_of { (i < n) × (n ≤ 17) }
    ensures defined { result ≡ touches_at t n i }
{
    let next = i + 1;
    if next < n {
        let end = t[i].end();
        let below = t[next].start as usize;
        return below <= end;
    }
    false
}

// Whether n stretches are in order, none empty and no two touching.
fn ordered(t: FreeTable, n: usize) -> bool
    requires few { n ≤ 17 }
    ensures defined { result ≡ apart (take n t) }
{
    for i in 0..n {
        let long = t[i].length;
        let touching = touches(t, n, i);
        if (long == 0) | touching {
            return false;
        }
    }
    true
}

// The free stretches, and empty ones to the end.
fn with_free(t: FreeTable, n: usize) -> [Stretch; ALL]
    requires few { n ≤ 17 }
    ensures defined { result ≡ take n t ++ replicate (33 - n) empty }
{
    let mut all = [EMPTY; ALL];
    all[..n].copy_from_slice(&t[..n]);
    all
}

// The sixteen pilots' stretches of list 1 behind the seventeen free ones.
fn with_pilots(free: [Stretch; ALL], stretches: &PoolStretches) -> [Stretch; ALL]
    ensures defined { result ≡ take 17 free ++ map (seat_of stretches.now) (from 0 16) }
{
    let mut all = free;
    for p in 0..PILOTS {
        all[p + FREE] = seat_of(stretches, p);
    }
    all
}

// Whether none has a row outside the pool.
fn all_inside(all: [Stretch; ALL], pool: usize) -> bool
    ensures defined { result ≡ every? (inside pool) all }
{
    all.iter().all(|s| !leaves(pool, pair(*s)))
}

// Whether the i-th overlaps none of the later ones.
fn clear_later(all: [Stretch; ALL], i: usize) -> bool
    requires one_of { i < 33 }
    ensures defined { result ≡ clear_from (get_or all i empty) (drop (i + 1) all) }
{
    let s = pair(all[i]);
    all[i + 1..].iter().all(|t| !overlaps(s, pair(*t)))
}

// Whether no two overlap.
fn all_clear(all: [Stretch; ALL]) -> bool
    ensures defined { result ≡ clear_of all }
{
    for i in 0..ALL {
        if !clear_later(all, i) {
            return false;
        }
    }
    true
}

// Their rows, added up.
fn total(all: [Stretch; ALL]) -> usize
    ensures defined { result ≡ lengths all }
{
    let mut sum = 0;
    for s in &all {
        sum += s.length as usize;
    }
    sum
}

// Whether a table of seventeen and the pilots' stretches are a state of the pool: every row free or a pilot's, none twice.
pub fn table_good(t: FreeTable, stretches: &PoolStretches, count: u32, pool: u32) -> bool
    ensures defined { result ≡ table_good (hall_of t count stretches.now pool) }
{
    let n = count as usize;
    if FREE < n {
        return false;
    }
    let free = with_free(t, n);
    let all = with_pilots(free, stretches);
    let same = !differ(stretches);
    let in_order = ordered(t, n);
    let rows = pool as usize;
    let within = all_inside(all, rows);
    let clear = all_clear(all);
    let sum = total(all);
    same & in_order & within & clear & (sum == rows)
}

// ---- admission

// The place of the first of n stretches that is as long.
fn first_long(t: FreeTable, n: usize, wanted: u32) -> Option<usize>
    requires few { n ≤ 17 }
    ensures defined { result ≡ place_in n (first_from t wanted 0 n) }
{
    t[..n].iter().position(|s| wanted <= s.length)
}

// The i-th of n stretches taken out: those after it move down by one, and the last place becomes empty.
fn shut(t: FreeTable, n: usize, i: usize) -> FreeTable
    requires one_of { (i < n) × (n ≤ 17) }
    ensures defined { result ≡ shut_of t n i }
{
    let mut u = t;
    for j in i + 1..n {
        u[j - 1] = u[j];
    }
    u[n - 1] = EMPTY;
    u
}

// The table once the first that is long enough has lost its front.
pub fn admit_table(t: FreeTable, count: u32, wanted: u32) -> FreeTable
    requires ready { Ready t count }
    ensures defined { result ≡ cut_table t count (cut_first wanted (take count t)) }
{
    let n = count as usize;
    let Some(i) = first_long(t, n, wanted) else {
        return t;
    };
    let low = t[i].start;
    let long = t[i].length;
    if long == wanted {
        return shut(t, n, i);
    }
    let mut u = t;
    u[i] = Stretch {
        start: low + wanted,
        length: long - wanted,
    };
    u
}

// How many free stretches there are once a pilot is admitted; its five pairs are written.
pub fn admit_seats(
    t: FreeTable,
    room: usize,
    stretches: &mut PoolStretches,
    count: u32,
    pool: u32,
    pilot: u32,
    wanted: u32,
) -> Result<usize, SeatRefusal>
    ensures defined { let h = hall_of t count stretches.old pool in
        (result ≡ answered (roomed room h (admit h pilot wanted))) × (stretches.new ≡ (roomed room h (admit h pilot wanted)).hall.seats) }
{
    if room < FREE {
        return Err(SeatRefusal::Table);
    }
    if !table_good(t, stretches, count, pool) {
        return Err(SeatRefusal::Table);
    }
    if 15 < pilot {
        return Err(SeatRefusal::Pilot(pilot));
    }
    let p = pilot as usize;
    let held = stretches[p][0][POOL_LENGTH];
    if 0 < held {
        return Err(SeatRefusal::Pilot(pilot));
    }
    if wanted == 0 {
        return Err(SeatRefusal::Length(pilot));
    }
    let n = count as usize;
    let Some(i) = first_long(t, n, wanted) else {
        return Err(SeatRefusal::Pool(pilot));
    };
    stretches[p] = [[t[i].start, wanted]; LISTS];
    if t[i].length == wanted {
        return Ok(n - 1);
    }
    Ok(n)
}

// ---- leaving

// The place of the first of n stretches that begins behind a row, or n.
fn first_behind(t: FreeTable, n: usize, start: u32) -> usize
    requires few { n ≤ 17 }
    ensures defined { result ≡ place_of start (take n t) }
{
    t[..n].iter().position(|s| start < s.start).unwrap_or(n)
}

// The i-th of the stretches with another at place k.
fn put_at(t: FreeTable, k: usize, s: Stretch, i: usize) -> Stretch
    requires places { (k ≤ 17) × (i ≤ 17) }
    ensures defined { result ≡ put_at k s t i }
{
    if i < k {
        return t[i];
    }
    if i == k {
        return s;
    }
    t[i - 1]
}

// The first n made empty.
fn emptied(t: FreeTable, n: usize) -> FreeTable
    requires few { n ≤ 17 }
    ensures defined { result ≡ replicate n empty ++ drop n t }
{
    let mut u = t;
    u[..n].fill(EMPTY);
    u
}

// How many free stretches there are once another is, joined where they touch.
fn freed_count(t: FreeTable, n: usize, s: Stretch) -> usize
    requires few { n ≤ 17 }
    ensures defined { result ≡ length (freed s (take n t)) }
{
    let k = first_behind(t, n, s.start);
    let mut last = put_at(t, k, s, 0);
    let mut m = 1;
    for i in 0..n {
        let next = put_at(t, k, s, i + 1);
        if last.end() != next.start as usize {
            m += 1;
        }
        last = next;
    }
    m
}

// The table once another stretch is free, in its place and joined where they touch.
pub fn leave_table(t: FreeTable, count: u32, s: Stretch) -> FreeTable
    requires ready { ReadyFor t count s }
    ensures defined { result ≡ freed_table t count s }
{
    let n = count as usize;
    let k = first_behind(t, n, s.start);
    let mut last = put_at(t, k, s, 0);
    let mut u = emptied(t, n);
    let mut m = 0;
    for i in 0..n {
        let next = put_at(t, k, s, i + 1);
        if last.end() == next.start as usize {
            last.length += next.length;
        } else {
            u[m] = last;
            m += 1;
            last = next;
        }
    }
    u[m] = last;
    u
}

// Whether a pilot may leave: how many free stretches there are then, and the stretch that it had.
pub fn leave_answer(
    t: FreeTable,
    room: usize,
    stretches: &PoolStretches,
    count: u32,
    pool: u32,
    pilot: u32,
) -> Result<Left, SeatRefusal>
    ensures defined { let h = hall_of t count stretches.now pool in
        result ≡ left_answered (roomed room h (leave h pilot)) (seat_of stretches.now pilot) }
{
    if room < FREE {
        return Err(SeatRefusal::Table);
    }
    if !table_good(t, stretches, count, pool) {
        return Err(SeatRefusal::Table);
    }
    if 15 < pilot {
        return Err(SeatRefusal::Pilot(pilot));
    }
    let stretch = seat_of(stretches, pilot as usize);
    if stretch.length == 0 {
        return Err(SeatRefusal::Pilot(pilot));
    }
    let free = freed_count(t, count as usize, stretch);
    Ok(Left { free, stretch })
}
