// What was calculated stays, or all of it is made zero: for entries that may refuse after the engine is done.
#![tactic(auto)]

ghost use Rattle.run.specs.Filled.{lent_columns};
ghost use Rattle.kept.specs.Kept.{Kept};

use clear::{KeptCounts, clear};
use columns::{AttributeRow, CollectedRow, EntryRow, PlainRow, SourceFloats, SourceRow, States};

// All columns and the states as they are, or all of them zero.
pub fn kept_if(
    states: &mut States,
    collected: &mut [CollectedRow],
    collected_values: &mut [f64],
    rows: &mut [AttributeRow],
    bases: &mut [f64],
    values: &mut [f64],
    entries: &mut [EntryRow],
    entry_values: &mut [f64],
    plain: &mut [PlainRow],
    sources: &mut [SourceRow],
    source_values: &mut [SourceFloats],
    keep: bool,
)
    ensures kept { let lists = lent_columns collected collected_values rows bases values entries entry_values plain sources source_values in
        Kept keep states.old lists.entry states.new lists.exit }
{
    if !keep {
        let none = KeptCounts {
            objects: 0,
            collected: 0,
            rows: 0,
            entries: 0,
            plain: 0,
            sources: 0,
        };
        clear(
            states,
            collected,
            collected_values,
            rows,
            bases,
            values,
            entries,
            entry_values,
            plain,
            sources,
            source_values,
            none,
        );
    }
}
