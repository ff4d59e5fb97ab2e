// First and count in list 5 of each row of list 2, planned before any value is calculated: how many source rows it gets when they are recorded (pass_3.rs).
ghost use Rattle.std.specs.Prelude.{◌≡◌, List, ◌++◌, ◌+◌, ◌*◌, ◌≤◌, length, drop};
ghost use Rattle.rules.specs.Dispatch.{Row};
ghost use Rattle.sources.specs.Planned.{planned_if};
ghost use Rattle.sources.specs.Ranged.{EntriesHeld, Ranged, planned_in};
ghost use Rattle.sources.specs.Rows.{held as held32, counts_by, planned_numbers, DispatchedRows, Planning};

use columns::{
    AttributeRow, EntryRow, ROW_ATTRIBUTE, ROW_ENTRY_COUNT, ROW_FIRST_ENTRY, ROW_OBJECT, States,
};
use info::little_endian::index;
use reading::entries::{entry_at, has_penalty, is_running};
use rules::Effect;

// How many source rows an entry gets.
fn sources_of(e: Effect, running: bool) -> u32
    ensures defined { result ≡ planned_if running e }
    ensures few { result ≤ 9 }
{
    if running & (e.penalty & has_penalty(e.operator)) {
        return e.quantity.min(9);
    }
    1
}

// How many source rows the entries from first on get.
fn sources_of_row(
    entries: &[EntryRow],
    values: &[f64],
    states: &States,
    first: usize,
    count: usize,
) -> usize
    requires ranged { Ranged entries.now values.now first count }
    ensures defined { (es : List Effect) → EntriesHeld es entries.now values.now → first + count ≤ length es
        → result ≡ planned_in states.now es first count }
    ensures few { result ≤ count * 9 }
{
    let mut total: usize = 0;
    for i in 0..count {
        let e = entry_at(entries, values, first + i);
        let more = sources_of(e, is_running(states, e.origin));
        total += more as usize;
    }
    total
}

// A number in 32 bits: past them it is the greatest.
fn held(count: usize) -> u32
    ensures defined { result ≡ held32 count }
{
    u32::try_from(count).unwrap_or(u32::MAX)
}

// First and count in list 5 of the first n rows, whose entries are in list 3.
pub fn set_sources(
    rows: &mut [AttributeRow],
    entries: &[EntryRow],
    values: &[f64],
    states: &States,
    n: usize,
)
    requires planning { Planning n rows.old entries.now values.now }
    ensures defined { (rs : List Row) → DispatchedRows rs n rows.old entries.now values.now
        → rows.new ≡ planned_numbers 0 0 rs (counts_by states.now rs) ++ drop n rows.old }
{
    let mut first: u32 = 0;
    for k in 0..n {
        let r = rows[k];
        let count = held(sources_of_row(
            entries,
            values,
            states,
            index(r[ROW_FIRST_ENTRY]),
            index(r[ROW_ENTRY_COUNT]),
        ));
        let end = held(index(first) + index(count));
        rows[k] = [
            r[ROW_OBJECT],
            r[ROW_ATTRIBUTE],
            r[ROW_FIRST_ENTRY],
            r[ROW_ENTRY_COUNT],
            first,
            count,
        ];
        first = end;
    }
}
