// Unused ends are zero: every column that is lent, and the states, cleared behind the counts in one pass. With counts of 0 all is zero.
#![tactic(auto)]

ghost use Rattle.std.specs.Prelude.{◌≡◌, length, replicate};
ghost use Rattle.laws.specs.Floats.{zero_f};
ghost use Rattle.clear.specs.Ends.{ClearedFrom};

use columns::{
    AttributeRow, COLLECTED_WIDTH, CollectedRow, ENTRY_WIDTH, EntryRow, OBJECTS, PLAIN_WIDTH,
    PlainRow, ROW_WIDTH, SOURCE_FLOATS, SOURCE_WIDTH, STATE_WIDTH, SourceFloats, SourceRow, States,
};

// One column: zero from a place on; a place past the end changes nothing.
pub fn zero_from<T: Copy>(column: &mut [T], zero: T, from: usize)
    ensures cleared { ClearedFrom column zero from }
{
    for i in from..column.len() {
        column[i] = zero;
    }
}

fn zero_states(states: &mut States, from: usize)
    ensures cleared { ClearedFrom states (replicate 2 0) from }
    ensures whole { length states.old ≡ 1024 }
{
    zero_from(states, [0; STATE_WIDTH], from);
}

// ---- all columns

// How many elements of each list stay.
#[derive(Clone, Copy)]
pub struct KeptCounts {
    pub objects: usize,
    pub collected: usize,
    pub rows: usize,
    pub entries: usize,
    pub plain: usize,
    pub sources: usize,
}

// Every column behind its count is zero.
pub fn clear(
    states: &mut States,
    collected: &mut [CollectedRow],
    collected_values: &mut [f64],
    rows: &mut [AttributeRow],
    bases: &mut [f64],
    values: &mut [f64],
    entries: &mut [EntryRow],
    entry_values: &mut [f64],
    plain: &mut [PlainRow],
    sources: &mut [SourceRow],
    source_values: &mut [SourceFloats],
    counts: KeptCounts,
)
    ensures collected { ClearedFrom collected (replicate 14 0) counts.collected }
    ensures collected_values { ClearedFrom collected_values zero_f counts.collected }
    ensures rows { ClearedFrom rows (replicate 6 0) counts.rows }
    ensures bases { ClearedFrom bases zero_f counts.rows }
    ensures values { ClearedFrom values zero_f counts.rows }
    ensures entries { ClearedFrom entries (replicate 12 0) counts.entries }
    ensures entry_values { ClearedFrom entry_values zero_f counts.entries }
    ensures plain { ClearedFrom plain (replicate 2 0) counts.plain }
    ensures sources { ClearedFrom sources (replicate 11 0) counts.sources }
    ensures source_values { ClearedFrom source_values (replicate 2 zero_f) counts.sources }
    ensures states { ClearedFrom states (replicate 2 0) counts.objects }
    ensures whole { length states.old ≡ 1024 }
{
    zero_from(collected, [0; COLLECTED_WIDTH], counts.collected);
    zero_from(collected_values, 0.0, counts.collected);
    zero_from(rows, [0; ROW_WIDTH], counts.rows);
    zero_from(bases, 0.0, counts.rows);
    zero_from(values, 0.0, counts.rows);
    zero_from(entries, [0; ENTRY_WIDTH], counts.entries);
    zero_from(entry_values, 0.0, counts.entries);
    zero_from(plain, [0; PLAIN_WIDTH], counts.plain);
    zero_from(sources, [0; SOURCE_WIDTH], counts.sources);
    zero_from(source_values, [0.0; SOURCE_FLOATS], counts.sources);
    zero_states(states, counts.objects);
}
