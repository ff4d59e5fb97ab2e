// Pilots come and go: a pilot is admitted with as many rows of every list as it wants, and gives them back when it leaves.
#![tactic(auto)]

ghost use Rattle.std.specs.Prelude.{◌≡◌, ◌+◌, ◌≤◌, ◌<◌, min, length};
ghost use Rattle.seats.specs.Told.{hall_of};
ghost use Rattle.evenings.specs.Leaving.{AdmitMeets, LeaveMeets, LeavesSeats, lent_pool, pool_rows, cleared_of};

use clear::{KeptCounts, clear};
use columns::{
    AttributeRow, CollectedRow, EntryRow, LISTS, PilotStates, PlainRow, PoolStretches,
    SourceFloats, SourceRow,
};
use free_table::{FreeTable, Stretch, load, store};
use seats::{Left, Seat, SeatRefusal, admit_seats, admit_table, done, leave_answer, leave_table};

// ---- admission

// Whether a pilot is admitted, and where; whatever the table, the stretches and the numbers: nothing is required.
pub fn dogma_admit(
    free: &mut [Stretch],
    stretches: &mut PoolStretches,
    count: u32,
    pool: u32,
    pilot: u32,
    wanted: u32,
) -> Seat
    ensures seated { let h = hall_of free.old count stretches.old pool in
        AdmitMeets h pilot wanted result free.new stretches.new }
{
    let room = free.len();
    let t = load(free);
    match admit_seats(t, room, stretches, count, pool, pilot, wanted) {
        Ok(now) => {
            store(free, admit_table(t, count, wanted));
            done(now)
        }
        Err(refusal) => refusal.told(count),
    }
}

// ---- leaving

// How many rows every column has, as far as a u32 counts them.
fn pool_rows(
    collected: usize,
    collected_values: usize,
    rows: usize,
    bases: usize,
    values: usize,
    entries: usize,
    entry_values: usize,
    plain: usize,
    sources: usize,
    source_values: usize,
) -> u32
    ensures defined { result ≡ min 4294967295 (min collected (min collected_values (min rows (min bases (min values (min entries
        (min entry_values (min plain (min sources source_values))))))))) }
{
    let five = sources.min(source_values);
    let four = plain.min(five);
    let three = entries.min(entry_values.min(four));
    let two = rows.min(bases.min(values.min(three)));
    let one = collected.min(collected_values.min(two));
    4294967295.min(one) as u32
}

// A pilot's states and the rows of its stretch made zero, in every column.
fn clear_seat(
    states: &mut PilotStates,
    collected: &mut [CollectedRow],
    collected_values: &mut [f64],
    rows: &mut [AttributeRow],
    bases: &mut [f64],
    values: &mut [f64],
    entries: &mut [EntryRow],
    entry_values: &mut [f64],
    plain: &mut [PlainRow],
    sources: &mut [SourceRow],
    source_values: &mut [SourceFloats],
    p: usize,
    seat: Stretch,
)
    requires a_pilot { p < 16 }
    requires collected { seat.start + seat.length ≤ length collected.old }
    requires collected_values { seat.start + seat.length ≤ length collected_values.old }
    requires rows { seat.start + seat.length ≤ length rows.old }
    requires bases { seat.start + seat.length ≤ length bases.old }
    requires values { seat.start + seat.length ≤ length values.old }
    requires entries { seat.start + seat.length ≤ length entries.old }
    requires entry_values { seat.start + seat.length ≤ length entry_values.old }
    requires plain { seat.start + seat.length ≤ length plain.old }
    requires sources { seat.start + seat.length ≤ length sources.old }
    requires source_values { seat.start + seat.length ≤ length source_values.old }
    ensures cleared { let c = lent_pool states collected collected_values rows bases values entries entry_values plain sources source_values in
        c.exit ≡ cleared_of seat p c.entry }
{
    let start = seat.start as usize;
    let end = seat.end();
    let none = KeptCounts {
        objects: 0,
        collected: 0,
        rows: 0,
        entries: 0,
        plain: 0,
        sources: 0,
    };
    clear(
        &mut states[p],
        &mut collected[start..end],
        &mut collected_values[start..end],
        &mut rows[start..end],
        &mut bases[start..end],
        &mut values[start..end],
        &mut entries[start..end],
        &mut entry_values[start..end],
        &mut plain[start..end],
        &mut sources[start..end],
        &mut source_values[start..end],
        none,
    );
}

// Whether a pilot leaves; its rows and its states are cleared, and it has no stretch.
pub fn leave_seats(
    states: &mut PilotStates,
    collected: &mut [CollectedRow],
    collected_values: &mut [f64],
    rows: &mut [AttributeRow],
    bases: &mut [f64],
    values: &mut [f64],
    entries: &mut [EntryRow],
    entry_values: &mut [f64],
    plain: &mut [PlainRow],
    sources: &mut [SourceRow],
    source_values: &mut [SourceFloats],
    stretches: &mut PoolStretches,
    t: FreeTable,
    room: usize,
    count: u32,
    pilot: u32,
) -> Result<Left, SeatRefusal>
    ensures left { let c = lent_pool states collected collected_values rows bases values entries entry_values plain sources source_values in
        let h = hall_of t count stretches.old (pool_rows c.entry) in
        LeavesSeats room h pilot c.entry c.exit result stretches.new }
{
    let pool = pool_rows(
        collected.len(),
        collected_values.len(),
        rows.len(),
        bases.len(),
        values.len(),
        entries.len(),
        entry_values.len(),
        plain.len(),
        sources.len(),
        source_values.len(),
    );
    let left = leave_answer(t, room, stretches, count, pool, pilot)?;
    let p = pilot as usize;
    clear_seat(
        states,
        collected,
        collected_values,
        rows,
        bases,
        values,
        entries,
        entry_values,
        plain,
        sources,
        source_values,
        p,
        left.stretch,
    );
    stretches[p] = [[0, 0]; LISTS];
    Ok(left)
}

// Whether a pilot leaves; its rows are zero and free again, joined to their neighbours. Nothing is required.
pub fn dogma_leave(
    states: &mut PilotStates,
    collected: &mut [CollectedRow],
    collected_values: &mut [f64],
    rows: &mut [AttributeRow],
    bases: &mut [f64],
    values: &mut [f64],
    entries: &mut [EntryRow],
    entry_values: &mut [f64],
    plain: &mut [PlainRow],
    sources: &mut [SourceRow],
    source_values: &mut [SourceFloats],
    free: &mut [Stretch],
    stretches: &mut PoolStretches,
    count: u32,
    pilot: u32,
) -> Seat
    ensures left { let c = lent_pool states collected collected_values rows bases values entries entry_values plain sources source_values in
        let h = hall_of free.old count stretches.old (pool_rows c.entry) in
        LeaveMeets h pilot c.entry c.exit result free.new stretches.new }
{
    let room = free.len();
    let t = load(free);
    let answer = leave_seats(
        states,
        collected,
        collected_values,
        rows,
        bases,
        values,
        entries,
        entry_values,
        plain,
        sources,
        source_values,
        stretches,
        t,
        room,
        count,
        pilot,
    );
    match answer {
        Ok(left) => {
            store(free, leave_table(t, count, left.stretch));
            done(left.free)
        }
        Err(refusal) => refusal.told(count),
    }
}
