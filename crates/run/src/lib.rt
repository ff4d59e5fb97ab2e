// A run over a sound sheet: states, lists 1 to 4, then values and source rows, into the lent columns (calculate.rs).
#![tactic(auto)]

ghost use Rattle.std.specs.Prelude.{◌≡◌, min};
ghost use Rattle.rules.specs.Outcome as outcome;
ghost use Rattle.rules.specs.Sheet.{book_of, fit_of};
ghost use Rattle.info.specs.Sound.{SoundBook, SoundFit};
ghost use Rattle.run.specs.Filled.{lent_columns, lent_of, RanAs};

use clear::KeptCounts;
use columns::{
    AttributeRow, CollectedRow, EntryRow, PlainRow, SourceFloats, SourceRow, States, TABLE_OBJECTS,
    TablePairs,
};
use info::header::{count_of, recording_of};
use info::places::{attribute_places, effect_places};
use lists::{ListRooms, set_lists};
use rules::Refusal;
use sources::Recording;
use states::correct_states;
use values::set_values;

// A list's room is its shortest column, at most what 32 bits count.
fn room_of(a: usize, b: usize) -> u32
    ensures defined { result ≡ outcome.counted (min a b) }
{
    u32::try_from(a.min(b)).unwrap_or(u32::MAX)
}

// A sound sheet: states, lists 1 to 4, then values and source rows.
pub fn fill(
    states: &mut States,
    collected: &mut [CollectedRow],
    collected_values: &mut [f64],
    rows: &mut [AttributeRow],
    bases: &mut [f64],
    values: &mut [f64],
    entries: &mut [EntryRow],
    entry_values: &mut [f64],
    plain: &mut [PlainRow],
    sources: &mut [SourceRow],
    source_values: &mut [SourceFloats],
    book: &[u8],
    fit: &[u8],
    pairs: &TablePairs,
) -> Result<KeptCounts, Refusal>
    requires sound_book { SoundBook book.now pairs.now }
    requires sound_fit { SoundFit fit.now pairs.now }
    ensures defined { let lists = lent_columns collected collected_values rows bases values entries entry_values plain sources source_values in
        let k = book_of book.now pairs.now in
        let f = fit_of fit.now pairs.now in
        RanAs (outcome.run k f (outcome.rooms_of (lent_of lists.entry))) result states.new lists.entry lists.exit }
{
    let of_effects = effect_places(book, pairs);
    let of_attributes = attribute_places(book, pairs);
    correct_states(states, book, fit, pairs, &of_effects);
    let rooms = ListRooms {
        collected: room_of(collected.len(), collected_values.len()) as usize,
        rows: room_of(rows.len(), bases.len().min(values.len())) as usize,
        entries: room_of(entries.len(), entry_values.len()) as usize,
        plain: room_of(plain.len(), plain.len()) as usize,
    };
    let run = Recording {
        room: room_of(sources.len(), source_values.len()),
        recording: recording_of(fit, pairs) == 1,
    };
    let n = set_lists(
        collected,
        collected_values,
        rows,
        bases,
        entries,
        entry_values,
        plain,
        book,
        fit,
        pairs,
        &of_effects,
        &of_attributes,
        rooms,
    )?;
    let used = set_values(
        rows,
        values,
        sources,
        source_values,
        bases,
        entries,
        entry_values,
        states,
        book,
        fit,
        pairs,
        n.rows,
        run,
    )?;
    Ok(KeptCounts {
        objects: count_of(pairs, TABLE_OBJECTS),
        collected: n.collected,
        rows: n.rows,
        entries: n.entries,
        plain: n.plain,
        sources: used as usize,
    })
}

pub mod lists;
pub mod outcome;
