// Dispatch (pass_2.rs, second half): the rows and entries of all objects, or the list that is full first.
#![tactic(auto)]

ghost use Rattle.std.specs.Prelude.{List, ◌≤◌, ◌<◌, ◌^◌, length};
ghost use Rattle.rules.specs.Bytes.{count_of};
ghost use Rattle.rules.specs.Sheet.{fit_of};
ghost use Rattle.rules.specs.Dispatch.{base_keys};
ghost use Rattle.rules.specs.declared.Pass2Effect.{Pass2Effect};
ghost use Rattle.info.specs.At.{book_at, fit_at};
ghost use Rattle.info.specs.Sound.{SoundBook, SoundFit};
ghost use Rattle.dispatch.specs.At.{CollectionAt, GivenAt};
ghost use Rattle.dispatch.specs.Whole.{Collecting};

use columns::{AttributePlaces, AttributeRow, CollectedRow, EntryRow, OBJECTS, TablePairs};
use hits::places::set_hits;
use room::full_at;
use rows::object_lists::all_lists;
use rows::rows::HINTS;
use rules::Refusal;

pub mod room;

// How many rows and entries there are.
#[derive(Clone, Copy)]
pub struct DispatchedCounts {
    pub rows: usize,
    pub entries: usize,
}

// The rows and entries of n collected effects, or ROOM of the list that is full first. After a refusal the columns may hold anything.
pub fn dispatch(
    rows: &mut [AttributeRow],
    bases: &mut [f64],
    entries: &mut [EntryRow],
    values: &mut [f64],
    collected: &[CollectedRow],
    collected_values: &[f64],
    book: &[u8],
    fit: &[u8],
    pairs: &TablePairs,
    places: &AttributePlaces,
    n: usize,
    room: usize,
    room_entries: usize,
) -> Result<DispatchedCounts, Refusal>
    requires sound_book { SoundBook book.now pairs.now }
    requires sound_fit { SoundFit fit.now pairs.now }
    requires collected_effects { Collecting n collected.now collected_values.now (count_of pairs.now 6) }
    requires inside { (room ≤ length rows.old) × (room ≤ length bases.old) × (length (base_keys (fit_of fit.now pairs.now)) ≤ room) }
    requires entries_inside { (room_entries ≤ length entries.old) × (room_entries ≤ length values.old) × (n < 2 ^ 32) × (room_entries < 2 ^ 32) }
    ensures defined { (es : List Pass2Effect) → CollectionAt es n collected collected_values pairs
        → GivenAt result room room_entries (book_at book pairs) (fit_at fit pairs) es rows bases entries values }
{
    let mut ends = [0u32; OBJECTS];
    let mut past = [0u32; 2];
    let used = set_hits(
        entries,
        &mut ends,
        &mut past,
        collected,
        book,
        fit,
        pairs,
        n,
        room_entries,
    );
    let mut hints = [0u16; HINTS];
    let k = all_lists(
        rows,
        bases,
        entries,
        values,
        &mut hints,
        &ends,
        &collected[..n],
        &collected_values[..n],
        book,
        fit,
        pairs,
        places,
        room,
    )
    .ok_or(Refusal::Room(2))?;
    if room_entries < used {
        let list = full_at(rows, past, k, room);
        return Err(Refusal::Room(list));
    }
    Ok(DispatchedCounts {
        rows: k,
        entries: used,
    })
}
