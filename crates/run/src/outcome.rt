// A verdict on the shape, then a run (calculate.rs).
ghost use Rattle.rules.specs.Outcome as outcome;
ghost use Rattle.rules.specs.Sheet.{book_of, fit_of};
ghost use Rattle.shape.specs.Shaped.{SoundBy};
ghost use Rattle.run.specs.Filled.{lent_columns, lent_of, RanAs, decided};

use super::fill;
use clear::KeptCounts;
use columns::{
    AttributeRow, CollectedRow, EntryRow, PlainRow, SourceFloats, SourceRow, States, TablePairs,
};
use rules::Refusal;
use shape::BadTable;

// Any bytes that are judged, any lists: SHAPE's refusal, or the run. After a refusal the columns may hold anything: who lent them clears them.
pub fn filled(
    states: &mut States,
    collected: &mut [CollectedRow],
    collected_values: &mut [f64],
    rows: &mut [AttributeRow],
    bases: &mut [f64],
    values: &mut [f64],
    entries: &mut [EntryRow],
    entry_values: &mut [f64],
    plain: &mut [PlainRow],
    sources: &mut [SourceRow],
    source_values: &mut [SourceFloats],
    book: &[u8],
    fit: &[u8],
    pairs: &TablePairs,
    verdict: Result<(), BadTable>,
) -> Result<KeptCounts, Refusal>
    requires sound { SoundBy verdict book.now fit.now pairs.now }
    ensures defined { let lists = lent_columns collected collected_values rows bases values entries entry_values plain sources source_values in
        let k = book_of book.now pairs.now in
        let f = fit_of fit.now pairs.now in
        RanAs (decided verdict k f (outcome.rooms_of (lent_of lists.entry))) result states.new lists.entry lists.exit }
{
    verdict?;
    fill(
        states,
        collected,
        collected_values,
        rows,
        bases,
        values,
        entries,
        entry_values,
        plain,
        sources,
        source_values,
        book,
        fit,
        pairs,
    )
}
