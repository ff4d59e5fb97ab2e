// The exported functions of `pilots`: one of several pilots, for callers in C. Each calls the library's function, and says what it says.
#![tactic(auto)]

ghost use Rattle.promises.specs.Pilots.{PilotMeets};
ghost use Rattle.run.specs.Filled.{lent_columns};
ghost use Rattle.pilots.specs.Given.{pool_of, told_of};

use calculate::Outcome;
use columns::{
    AttributeRow, CollectedRow, EntryRow, PilotStates, PlainRow, PoolStretches, SourceFloats,
    SourceRow,
};

// A pilot's lists, states and answer, whatever the bytes, the stretches and the pool: nothing is required.
#[unsafe(no_mangle)]
pub extern "C" fn dogma_calculate_pilot(
    states: &mut PilotStates,
    collected: &mut [CollectedRow],
    collected_values: &mut [f64],
    rows: &mut [AttributeRow],
    bases: &mut [f64],
    values: &mut [f64],
    entries: &mut [EntryRow],
    entry_values: &mut [f64],
    plain: &mut [PlainRow],
    sources: &mut [SourceRow],
    source_values: &mut [SourceFloats],
    stretches: &PoolStretches,
    book: &[u8],
    fit: &[u8],
    pilot: u32,
) -> Outcome
    ensures the_pilots_answer { let lists = lent_columns collected collected_values rows bases values entries entry_values plain sources source_values in
        let before = pool_of states.old lists.entry in
        let after = pool_of states.new lists.exit in
        PilotMeets book.now fit.now stretches.now pilot before after (told_of result) }
{
    pilots::dogma_calculate_pilot(
        states,
        collected,
        collected_values,
        rows,
        bases,
        values,
        entries,
        entry_values,
        plain,
        sources,
        source_values,
        stretches,
        book,
        fit,
        pilot,
    )
}
