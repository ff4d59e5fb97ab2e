// Rows of list 2 in an order in which each stands behind all that it needs: depth first, with a path of its own, a look at a time.
#![tactic(auto)]

ghost use Rattle.std.specs.Prelude.{◌≡◌, true, [], ◌+◌, ◌*◌, ◌≤◌, ◌<◌, ◌^◌, length, get_or};
ghost use Rattle.needs.specs.Telling.{NeedTables, tables_of, KnowsNeeds};
ghost use Rattle.order.specs.Ranks.{num, Put, Unmet, Ranked};
ghost use Rattle.order.specs.Walks.{Walking, Pushable, Looking, AllPlaced, TurnsTo};

use info::little_endian::index;
use needs::NeedColumns;

// What is kept of row j while rows are put in order: four numbers.
pub type WorkRow = [u32; 4];

// Whether row j is not met, on the path or placed. The three are numbers and no enum, since the words that hold them are the caller's.
pub const WORK_MARK: usize = 0;

// Of a row on the path how many slots are looked at; of a placed row its rank.
pub const WORK_AT: usize = 1;

// The j-th row of the path.
pub const WORK_PATH: usize = 2;

// The j-th row placed.
pub const WORK_PLACED: usize = 3;

pub const NOT_MET: u32 = 0;

pub const ON_PATH: u32 = 1;

pub const PLACED: u32 = 2;

// The first row that may not be placed, how many rows the path has, and how many are placed.
#[derive(Clone, Copy)]
pub struct Walk {
    pub next: usize,
    pub depth: usize,
    pub placed: usize,
}

// One number of one row.
pub fn put(work: &mut [WorkRow], row: usize, number: usize, x: u32)
    requires inside { (row < length work.old) × (number < 4) }
    ensures put { Put work.old row number x work.new }
{
    work[row][number] = x;
}

// No row is met.
pub fn unmet(work: &mut [WorkRow], n: usize)
    requires inside { n ≤ length work.old }
    ensures unmet { Unmet n work.new }
{
    work[..n].fill([0; 4]);
}

// A row is put at the end of the path.
fn push(work: &mut [WorkRow], walk: Walk, row: usize) -> Option<Walk>
    requires inside { (row < length work.old) × (row < 2 ^ 32) }
    ensures walking { (t : NeedTables) → Walking t walk work.old → Pushable t.rows work.old row
        → TurnsTo t result work.new }
{
    if work.len() <= walk.depth {
        return None;
    }
    put(work, row, WORK_MARK, ON_PATH);
    put(work, walk.depth, WORK_PATH, row as u32);
    Some(Walk {
        depth: walk.depth + 1,
        ..walk
    })
}

// A row whose needs are all placed is placed.
fn place(work: &mut [WorkRow], n: usize, walk: Walk, row: usize) -> Option<Walk>
    requires inside { (row < n) × ((n ≤ length work.old) × (n < 2 ^ 32)) }
    ensures walking { (t : NeedTables) → n ≡ length t.rows → Walking t walk work.old
        → Pushable t.rows work.old row → AllPlaced t work.old row
        → TurnsTo t result work.new }
{
    if n <= walk.placed {
        return None;
    }
    put(work, row, WORK_MARK, PLACED);
    put(work, row, WORK_AT, walk.placed as u32);
    put(work, walk.placed, WORK_PLACED, row as u32);
    Some(Walk {
        placed: walk.placed + 1,
        ..walk
    })
}

// A slot in which nothing stands, or a placed row, is done with.
fn pass(work: &mut [WorkRow], walk: Walk, row: usize) -> Option<Walk>
    requires inside { row < length work.old }
    ensures walking { (t : NeedTables) → Walking t walk work.old → Pushable t.rows work.old row
        → Looking t work.old row → TurnsTo t result work.new }
{
    let slot = work[row][WORK_AT];
    if 4294967295 <= slot {
        return None;
    }
    put(work, row, WORK_AT, slot + 1);
    Some(walk)
}

// The next slot of the path's last row: what stands there is passed where it is placed, and put on the path where it is not met.
fn look(
    work: &mut [WorkRow],
    columns: &NeedColumns,
    walk: Walk,
    row: usize,
    slot: usize,
) -> Option<Walk>
    requires holding { KnowsNeeds (tables_of columns.now) }
    requires walking { Walking (tables_of columns.now) walk work.old }
    requires pushable { Pushable columns.now.rows.now work.old row }
    requires at { (slot ≡ num work.old row 1) × (slot < 2 * get_or (get_or columns.now.rows.now row []) 3 0 + 2) }
    ensures walking { TurnsTo (tables_of columns.now) result work.new }
{
    let Some(k) = columns.need_at(row, slot) else {
        return pass(work, walk, row);
    };
    let mark = work[k][WORK_MARK];
    if mark == PLACED {
        return pass(work, walk, row);
    }
    if mark == NOT_MET {
        return push(work, walk, k);
    }
    None
}

// One turn: the path's last row is placed, left or looked at; with no path the next row is placed, if it needs nothing, or begins one.
fn turn(work: &mut [WorkRow], columns: &NeedColumns, walk: Walk) -> Option<Walk>
    requires holding { KnowsNeeds (tables_of columns.now) }
    requires walking { Walking (tables_of columns.now) walk work.old }
    requires left { walk.next < length columns.now.rows.now }
    ensures walking { TurnsTo (tables_of columns.now) result work.new }
{
    if walk.depth == 0 {
        let row = walk.next;
        let mark = work[row][WORK_MARK];
        if mark == PLACED {
            return Some(Walk {
                next: row + 1,
                ..walk
            });
        }
        let needless = columns.needs_nothing(row);
        if needless {
            return place(work, columns.rows.len(), walk, row);
        }
        return push(work, walk, row);
    }
    let top = index(work[walk.depth - 1][WORK_PATH]);
    let mark = work[top][WORK_MARK];
    if mark == PLACED {
        return Some(Walk {
            depth: walk.depth - 1,
            ..walk
        });
    }
    let slot = index(work[top][WORK_AT]);
    let slots = columns.slots_of(top);
    if slots <= slot {
        return place(work, columns.rows.len(), walk, top);
    }
    look(work, columns, walk, top, slot)
}

// Whether all rows are placed, each behind what it needs: their ranks, and the rows by rank. No more turns than rows and entries ask for.
// The columns are taken by value: of those behind a reference it is not known that their lengths, doubled, fit.
pub fn ordered(work: &mut [WorkRow], columns: NeedColumns) -> bool
    requires holding { KnowsNeeds (tables_of columns) }
    requires room { (length columns.rows.now ≤ length work.old) × (length columns.rows.now < 2 ^ 32) }
    ensures ranked { (h : KnowsNeeds (tables_of columns.entry)) → result ≡ true
        → Ranked h.world work.new }
{
    let n = columns.rows.len();
    unmet(work, n);
    let turns = 2 * columns.entries.len() + 6 * n;
    let mut walk = Walk {
        next: 0,
        depth: 0,
        placed: 0,
    };
    for _ in 0..turns {
        if n <= walk.next {
            return true;
        }
        let Some(next) = turn(work, &columns, walk) else {
            return false;
        };
        walk = next;
    }
    n <= walk.next
}
