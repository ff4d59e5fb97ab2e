// The exported functions of `calculate`: a run of a sheet, for callers in C. Each calls the library's function, and says what it says.
#![tactic(auto)]

ghost use Rattle.promises.specs.Result.{Meets};
ghost use Rattle.run.specs.Filled.{lent_columns, lent_of};
ghost use Rattle.calculate.specs.Given.{result_of};

use calculate::Outcome;
use columns::{AttributeRow, CollectedRow, EntryRow, PlainRow, SourceFloats, SourceRow, States};

// Every list, every state and the answer, whatever the bytes and whatever the lists: nothing is required.
#[unsafe(no_mangle)]
pub extern "C" fn dogma_calculate(
    states: &mut States,
    collected: &mut [CollectedRow],
    collected_values: &mut [f64],
    rows: &mut [AttributeRow],
    bases: &mut [f64],
    values: &mut [f64],
    entries: &mut [EntryRow],
    entry_values: &mut [f64],
    plain: &mut [PlainRow],
    sources: &mut [SourceRow],
    source_values: &mut [SourceFloats],
    sheet: &[u8],
) -> Outcome
    ensures the_definitions_answer { let lists = lent_columns collected collected_values rows bases values entries entry_values plain sources source_values in
        Meets sheet.now (lent_of lists.entry) (result_of result states.new lists.exit) }
{
    calculate::dogma_calculate(
        states,
        collected,
        collected_values,
        rows,
        bases,
        values,
        entries,
        entry_values,
        plain,
        sources,
        source_values,
        sheet,
    )
}
