// One set of records, several pilots: a pilot's rows are calculated from book and fit into its stretches of one lent pool.
#![tactic(auto)]

ghost use Rattle.promises.specs.Pilots.{PilotMeets};
ghost use Rattle.run.specs.Filled.{lent_columns};
ghost use Rattle.pilots.specs.Given.{pool_of, told_of};

use calculate::{Outcome, calculated};
use columns::{
    AttributeRow, CollectedRow, EntryRow, PilotStates, PlainRow, PoolStretches, SourceFloats,
    SourceRow,
};
use files::{files_shape, pairs_in};
use lending::{Lengths, lend, pool_answer};

// A pilot's lists, states and answer, whatever the bytes, the stretches and the pool: nothing is required.
pub fn dogma_calculate_pilot(
    states: &mut PilotStates,
    collected: &mut [CollectedRow],
    collected_values: &mut [f64],
    rows: &mut [AttributeRow],
    bases: &mut [f64],
    values: &mut [f64],
    entries: &mut [EntryRow],
    entry_values: &mut [f64],
    plain: &mut [PlainRow],
    sources: &mut [SourceRow],
    source_values: &mut [SourceFloats],
    stretches: &PoolStretches,
    book: &[u8],
    fit: &[u8],
    pilot: u32,
) -> Outcome
    ensures the_pilots_answer { let lists = lent_columns collected collected_values rows bases values entries entry_values plain sources source_values in
        let before = pool_of states.old lists.entry in
        let after = pool_of states.new lists.exit in
        PilotMeets book.now fit.now stretches.now pilot before after (told_of result) }
{
    let lengths = Lengths {
        collected: collected.len(),
        collected_values: collected_values.len(),
        rows: rows.len(),
        bases: bases.len(),
        values: values.len(),
        entries: entries.len(),
        entry_values: entry_values.len(),
        plain: plain.len(),
        sources: sources.len(),
        source_values: source_values.len(),
    };
    let at = match lend(stretches, lengths, pilot) {
        Ok(at) => at,
        Err(bad) => return pool_answer(bad.place),
    };
    let p = pilot as usize;
    let pairs = pairs_in(book, fit);
    let verdict = files_shape(book, fit, &pairs);
    calculated(
        &mut states[p],
        &mut collected[at.collected..at.collected_end],
        &mut collected_values[at.collected..at.collected_end],
        &mut rows[at.rows..at.rows_end],
        &mut bases[at.rows..at.rows_end],
        &mut values[at.rows..at.rows_end],
        &mut entries[at.entries..at.entries_end],
        &mut entry_values[at.entries..at.entries_end],
        &mut plain[at.plain..at.plain_end],
        &mut sources[at.sources..at.sources_end],
        &mut source_values[at.sources..at.sources_end],
        book,
        fit,
        &pairs,
        verdict,
    )
}

pub mod lending;
