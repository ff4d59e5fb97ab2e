// Lists 1 to 4 of a sound sheet: base attributes, collection and dispatch, in 01's order.
ghost use Rattle.rules.specs.Sheet.{book_of, fit_of};
ghost use Rattle.info.specs.Sound.{SoundBook, SoundFit};
ghost use Rattle.run.specs.Listing.{RoomsLent, ListsGive, RowsWithin, lists_in};

use collect::objects::collect;
use columns::{
    AttributePlaces, AttributeRow, CollectedRow, EffectPlaces, EntryRow, PlainRow, TablePairs,
};
use dispatch::dispatch;
use dispatch::room::base_total;
use rules::Refusal;

// The rooms of lists 1 to 4.
#[derive(Clone, Copy)]
pub struct ListRooms {
    pub collected: usize,
    pub rows: usize,
    pub entries: usize,
    pub plain: usize,
}

// How many rows each of them has.
#[derive(Clone, Copy)]
pub struct ListCounts {
    pub collected: usize,
    pub rows: usize,
    pub entries: usize,
    pub plain: usize,
}

// Lists 1 to 4. The base attributes are to have room before anything is collected. After a refusal the columns may hold anything: who lent them clears them.
pub fn set_lists(
    collected: &mut [CollectedRow],
    collected_values: &mut [f64],
    rows: &mut [AttributeRow],
    bases: &mut [f64],
    entries: &mut [EntryRow],
    entry_values: &mut [f64],
    plain: &mut [PlainRow],
    book: &[u8],
    fit: &[u8],
    pairs: &TablePairs,
    effect_places: &EffectPlaces,
    attribute_places: &AttributePlaces,
    rooms: ListRooms,
) -> Result<ListCounts, Refusal>
    requires sound_book { SoundBook book.now pairs.now }
    requires sound_fit { SoundFit fit.now pairs.now }
    requires roomy { RoomsLent rooms collected.old collected_values.old rows.old bases.old entries.old entry_values.old plain.old }
    ensures defined { let k = book_of book.now pairs.now in
        let f = fit_of fit.now pairs.now in
        ListsGive k f rooms collected collected_values rows bases entries entry_values plain result (lists_in k f) }
    ensures within { RowsWithin rooms.rows result }
{
    let base = base_total(fit, pairs);
    if rooms.rows < base {
        return Err(Refusal::Room(2));
    }
    let counts = collect(
        collected,
        collected_values,
        plain,
        book,
        fit,
        pairs,
        effect_places,
        rooms.collected,
        rooms.plain,
    )?;
    let dispatched = dispatch(
        rows,
        bases,
        entries,
        entry_values,
        collected,
        collected_values,
        book,
        fit,
        pairs,
        attribute_places,
        counts.collected,
        rooms.rows,
        rooms.entries,
    )?;
    Ok(ListCounts {
        collected: counts.collected,
        rows: dispatched.rows,
        entries: dispatched.entries,
        plain: counts.plain,
    })
}
