// The exported functions of `hall`: pilots come and go, for callers in C. Each calls the library's function, and says what it says.
#![tactic(auto)]

ghost use Rattle.seats.specs.Told.{hall_of};
ghost use Rattle.evenings.specs.Leaving.{AdmitMeets, LeaveMeets, lent_pool, pool_rows};

use columns::{
    AttributeRow, CollectedRow, EntryRow, PilotStates, PlainRow, PoolStretches, SourceFloats,
    SourceRow,
};
use free_table::Stretch;
use seats::Seat;

// Whether a pilot is admitted, and where; whatever the table, the stretches and the numbers: nothing is required.
#[unsafe(no_mangle)]
pub extern "C" fn dogma_admit(
    free: &mut [Stretch],
    stretches: &mut PoolStretches,
    count: u32,
    pool: u32,
    pilot: u32,
    wanted: u32,
) -> Seat
    ensures seated { let h = hall_of free.old count stretches.old pool in
        AdmitMeets h pilot wanted result free.new stretches.new }
{
    hall::dogma_admit(free, stretches, count, pool, pilot, wanted)
}

// Whether a pilot leaves; its rows are zero and free again, joined to their neighbours. Nothing is required.
#[unsafe(no_mangle)]
pub extern "C" fn dogma_leave(
    states: &mut PilotStates,
    collected: &mut [CollectedRow],
    collected_values: &mut [f64],
    rows: &mut [AttributeRow],
    bases: &mut [f64],
    values: &mut [f64],
    entries: &mut [EntryRow],
    entry_values: &mut [f64],
    plain: &mut [PlainRow],
    sources: &mut [SourceRow],
    source_values: &mut [SourceFloats],
    free: &mut [Stretch],
    stretches: &mut PoolStretches,
    count: u32,
    pilot: u32,
) -> Seat
    ensures left { let c = lent_pool states collected collected_values rows bases values entries entry_values plain sources source_values in
        let h = hall_of free.old count stretches.old (pool_rows c.entry) in
        LeaveMeets h pilot c.entry c.exit result free.new stretches.new }
{
    hall::dogma_leave(
        states,
        collected,
        collected_values,
        rows,
        bases,
        values,
        entries,
        entry_values,
        plain,
        sources,
        source_values,
        free,
        stretches,
        count,
        pilot,
    )
}
