// Lists 1 to 4 and the states of a sound sheet, as the engine makes them before any value.
ghost use Rattle.std.specs.Prelude.{◌≡◌, min};
ghost use Rattle.rules.specs.Outcome.{counted};
ghost use Rattle.rules.specs.Sheet.{book_of, fit_of};
ghost use Rattle.info.specs.Sound.{SoundBook, SoundFit};
ghost use Rattle.states.specs.Raised.{rows_of};
ghost use Rattle.run.specs.Listing.{RoomsOf, RoomsLent, ListsGive, RowsWithin, lists_in};
ghost use Rattle.checks.specs.Check.{check_rooms};
ghost use Rattle.checks.specs.Checked.{lengths};

use columns::{AttributeRow, CollectedRow, EntryRow, PlainRow, States, TablePairs};
use info::places::{attribute_places, effect_places};
use rules::Refusal;
use run::lists::{ListCounts, ListRooms, set_lists};
use states::correct_states;

// A list's room is its shortest column, at most what 32 bits count.
fn room_of(a: usize, b: usize) -> usize
    ensures defined { result ≡ counted (min a b) }
{
    a.min(b).min(4294967295)
}

// The rooms of lists 1 to 4 by the lengths of their columns; the lent scratch is a column of list 2.
pub fn rooms_of(
    collected: usize,
    collected_values: usize,
    rows: usize,
    bases: usize,
    values: usize,
    work: usize,
    entries: usize,
    entry_values: usize,
    plain: usize,
) -> ListRooms
    ensures defined { RoomsOf (check_rooms (lengths collected collected_values rows bases values entries entry_values plain) work) result }
{
    let least = bases.min(values).min(work);
    ListRooms {
        collected: room_of(collected, collected_values),
        rows: room_of(rows, least),
        entries: room_of(entries, entry_values),
        plain: room_of(plain, plain),
    }
}

// The states, then lists 1 to 4. After a refusal the columns may hold anything.
pub fn set_sheet(
    states: &mut States,
    collected: &mut [CollectedRow],
    collected_values: &mut [f64],
    rows: &mut [AttributeRow],
    bases: &mut [f64],
    entries: &mut [EntryRow],
    entry_values: &mut [f64],
    plain: &mut [PlainRow],
    sheet: &[u8],
    pairs: &TablePairs,
    rooms: ListRooms,
) -> Result<ListCounts, Refusal>
    requires sound_book { SoundBook sheet.now pairs.now }
    requires sound_fit { SoundFit sheet.now pairs.now }
    requires roomy { RoomsLent rooms collected.old collected_values.old rows.old bases.old entries.old entry_values.old plain.old }
    ensures defined { let k = book_of sheet.now pairs.now in
        let f = fit_of sheet.now pairs.now in
        ListsGive k f rooms collected collected_values rows bases entries entry_values plain result (lists_in k f) }
    ensures within { RowsWithin rooms.rows result }
    ensures states { states.new ≡ rows_of (book_of sheet.now pairs.now) (fit_of sheet.now pairs.now) }
{
    let of_effects = effect_places(sheet, pairs);
    let of_attributes = attribute_places(sheet, pairs);
    correct_states(states, sheet, sheet, pairs, &of_effects);
    set_lists(
        collected,
        collected_values,
        rows,
        bases,
        entries,
        entry_values,
        plain,
        sheet,
        sheet,
        pairs,
        &of_effects,
        &of_attributes,
        rooms,
    )
}
