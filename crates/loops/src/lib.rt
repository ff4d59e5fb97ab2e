// LOOP: whether an attribute leads back to itself, and the lowest object that has one.
#![tactic(auto)]

ghost use Rattle.std.specs.Prelude.{◌≡◌, true, ◌+◌, ◌≤◌, ◌<◌, ◌^◌, length};
ghost use Rattle.laws.specs.Options.{option_of};
ghost use Rattle.needs.specs.Telling.{tables_of, KnowsNeeds};
ghost use Rattle.order.specs.Ranks.{num};
ghost use Rattle.loops.specs.Loop.{backs, loop_at};
ghost use Rattle.loops.specs.Looping.{unmarked, Spreading, Queued, Earlier, Meets};

use columns::ROW_OBJECT;
use info::little_endian::index;
use needs::NeedColumns;
use order::{WORK_MARK, WORK_PLACED, WorkRow, ordered, put, unmet};

// A row that does not have the mark gets it, and stands at the end of the queue.
fn queued(work: &mut [WorkRow], row: usize, mark: u32, end: usize) -> usize
    requires inside { (row < length work.old) × (row < 2 ^ 32) }
    requires room { end + unmarked mark work.old ≤ length work.old }
    ensures queued { Queued mark row end result work.old work.new }
{
    let own = work[row][WORK_MARK];
    if own == mark {
        return end;
    }
    put(work, row, WORK_MARK, mark);
    put(work, end, WORK_PLACED, row as u32);
    end + 1
}

// All that the row at a place of the queue needs is met: the queue's end then; None where the row that is searched for is among it.
fn meet(
    work: &mut [WorkRow],
    columns: &NeedColumns,
    row: usize,
    head: usize,
    end: usize,
) -> Option<usize>
    requires holding { KnowsNeeds (tables_of columns.now) }
    requires within { (row < length columns.now.rows.now) × (head < end) }
    requires spreading { Spreading (tables_of columns.now) row (length columns.now.rows.now) 0 head end work.old }
    ensures meets { Meets (tables_of columns.now) row (head + 1) result work.new }
{
    let mark = row as u32 + 1;
    let at = index(work[head][WORK_PLACED]);
    let slots = columns.slots_of(at);
    let mut last = end;
    for s in 0..slots {
        let Some(k) = columns.need_at(at, s) else {
            continue;
        };
        if k == row {
            return None;
        }
        last = queued(work, k, mark, last);
    }
    Some(last)
}

// Whether a row leads back to itself: all that it leads to is met, nearest first. Marks are row numbers plus 1, so none is taken back.
pub fn leads_back(work: &mut [WorkRow], columns: &NeedColumns, row: usize) -> bool
    requires holding { KnowsNeeds (tables_of columns.now) }
    requires room { (length columns.now.rows.now ≤ length work.old) × (length columns.now.rows.now < 2 ^ 32) }
    requires within { row < length columns.now.rows.now }
    requires earlier { Earlier (length columns.now.rows.now) row work.old }
    ensures defined { (h : KnowsNeeds (tables_of columns.now)) → result ≡ backs h.world row }
    ensures earlier { Earlier (length columns.now.rows.now) (row + 1) work.new }
{
    let mut end = queued(work, row, row as u32 + 1, 0);
    let mut head: usize = 0;
    // A while, since the queue grows as it is read: its end is no bound that a `for` could have.
    while head < end {
        let Some(last) = meet(work, columns, row, head, end) else {
            return true;
        };
        end = last;
        head += 1;
    }
    false
}

// The object of the first row that leads back to itself: rows ascend by object.
pub fn lowest(work: &mut [WorkRow], columns: NeedColumns) -> Option<u32>
    requires holding { KnowsNeeds (tables_of columns) }
    requires room { (length columns.rows.now ≤ length work.old) × (length columns.rows.now < 2 ^ 32) }
    ensures defined { (h : KnowsNeeds (tables_of columns.entry)) → option_of result ≡ loop_at h.world }
{
    let n = columns.rows.len();
    unmet(work, n);
    for i in 0..n {
        if leads_back(work, &columns, i) {
            return Some(columns.rows[i][ROW_OBJECT]);
        }
    }
    None
}

// LOOP: where the rows can be put in order there is none; else it is sought.
pub fn loop_of(work: &mut [WorkRow], columns: NeedColumns) -> Option<u32>
    requires holding { KnowsNeeds (tables_of columns) }
    requires room { (length columns.rows.now ≤ length work.old) × (length columns.rows.now < 2 ^ 32) }
    ensures defined { (h : KnowsNeeds (tables_of columns.entry)) → option_of result ≡ loop_at h.world }
{
    let all = ordered(work, columns);
    if all { None } else { lowest(work, columns) }
}
