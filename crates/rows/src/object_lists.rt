// Dispatch (pass_2.rs, second half): the rows and entries of objects, each in its own stretch of list 2 and its own segment of list 3.
ghost use Rattle.std.specs.Prelude.{◌≡◌, List, [], map, ℕ, ◌+◌, ◌≤◌, ◌<◌, ◌^◌, length};
ghost use Rattle.rules.specs.Bytes.{count_of};
ghost use Rattle.rules.specs.Sheet.{book_of, fit_of};
ghost use Rattle.rules.specs.Item as items;
ghost use Rattle.rules.specs.Columns.{rows_numbers};
ghost use Rattle.rules.specs.declared.Pass2Effect.{Pass2Effect};
ghost use Rattle.info.specs.At.{book_at, fit_at, objects_at};
ghost use Rattle.info.specs.Sound.{SoundBook, SoundFit};
ghost use Rattle.rows.specs.Tallies.{hit_id, OfCollected, tallied};
ghost use Rattle.rows.specs.Effects.{Listing};
ghost use Rattle.rows.specs.At.{rows_of, Holding, ObjectLaidAt, AllLaidAt};
ghost use Rattle.rows.specs.Laying.{Tallied, EntriesLaid};
ghost use Rattle.rows.specs.Parts.{hits_to, Parts, Parting, rows_to};

use super::entries::write_entries;
use super::rows::{Hints, object_rows};
use super::spread::{set_firsts, spread};
use columns::{
    AttributePlaces, AttributeRow, CollectedRow, EntryRow, Places, TABLE_OBJECTS, TablePairs,
};
use info::header::count_of;
use info::little_endian::index;

// The entries of object i, in its own segment, which begins at place `from` of list 3; `rows` are its rows as the hits left them.
fn object_entries(
    rows: &mut [AttributeRow],
    segment: &mut [EntryRow],
    values: &mut [f64],
    hints: &mut Hints,
    collected: &[CollectedRow],
    collected_values: &[f64],
    book: &[u8],
    fit: &[u8],
    pairs: &TablePairs,
    places: &AttributePlaces,
    i: u32,
    from: u32,
)
    requires sound_book { SoundBook book.now pairs.now }
    requires sound_fit { SoundFit fit.now pairs.now }
    requires an_object { i < count_of pairs.now 6 }
    requires listed { Listing collected.now collected_values.now (count_of pairs.now 6) }
    requires even { length segment.old ≡ length values.old }
    requires numbered { (OfCollected segment.old collected.now) × (from + length segment.old < 2 ^ 32) }
    requires raised { let f = fit_of fit.now pairs.now in
        Tallied i (tallied (book_of book.now pairs.now) f (items.object f i) (map (hit_id collected.now) segment.old)) rows.old }
    ensures laid { (es : List Pass2Effect) → Holding es collected collected_values pairs
        → (rows.new ≡ rows_numbers from 0 (rows_of book fit pairs i segment es) [])
        × EntriesLaid (rows_of book fit pairs i segment es) segment.new values.new }
{
    set_firsts(rows, hints, from);
    spread(rows, segment, collected, hints, i, from);
    write_entries(
        segment,
        values,
        collected,
        collected_values,
        book,
        fit,
        pairs,
        places,
        i,
    );
}

// The rows of object i in its own stretch, and its entries in its own segment, which begins at place `from` of list 3.
pub fn object_lists(
    rows: &mut [AttributeRow],
    bases: &mut [f64],
    segment: &mut [EntryRow],
    values: &mut [f64],
    hints: &mut Hints,
    collected: &[CollectedRow],
    collected_values: &[f64],
    book: &[u8],
    fit: &[u8],
    pairs: &TablePairs,
    places: &AttributePlaces,
    i: usize,
    from: u32,
) -> Option<usize>
    requires sound_book { SoundBook book.now pairs.now }
    requires sound_fit { SoundFit fit.now pairs.now }
    requires an_object { i < count_of pairs.now 6 }
    requires listed { Listing collected.now collected_values.now (count_of pairs.now 6) }
    requires even { (length rows.old ≡ length bases.old) × (length segment.old ≡ length values.old) }
    requires numbered { (OfCollected segment.old collected.now) × (from + length segment.old < 2 ^ 32) }
    ensures laid { (es : List Pass2Effect) → Holding es collected collected_values pairs
        → ObjectLaidAt result from (rows_of book fit pairs i segment es) rows bases segment values }
{
    let k = object_rows(
        rows, bases, segment, collected, book, fit, pairs, places, hints, i,
    )?;
    object_entries(
        &mut rows[..k],
        segment,
        values,
        hints,
        collected,
        collected_values,
        book,
        fit,
        pairs,
        places,
        i as u32,
        from,
    );
    Some(k)
}

// The rows and entries of all objects, whose segments end at `ends`: how many rows there are, or that they are more than the room.
pub fn all_lists(
    rows: &mut [AttributeRow],
    bases: &mut [f64],
    entries: &mut [EntryRow],
    values: &mut [f64],
    hints: &mut Hints,
    ends: &Places,
    collected: &[CollectedRow],
    collected_values: &[f64],
    book: &[u8],
    fit: &[u8],
    pairs: &TablePairs,
    places: &AttributePlaces,
    room: usize,
) -> Option<usize>
    requires sound_book { SoundBook book.now pairs.now }
    requires sound_fit { SoundFit fit.now pairs.now }
    requires listed { Listing collected.now collected_values.now (count_of pairs.now 6) }
    requires inside { (room ≤ length rows.old) × (room ≤ length bases.old) }
    requires parted { Parting (count_of pairs.now 6) entries.old values.old ends.now collected.now }
    ensures laid { let n = objects_at pairs in
        ((es : List Pass2Effect) (part : ℕ → List ℕ) → Holding es collected collected_values pairs → Parts part n entries.old ends.now
        → AllLaidAt result room (hits_to part n) (rows_to (book_at book pairs) (fit_at fit pairs) es part n) rows bases entries values) }
{
    let objects = count_of(pairs, TABLE_OBJECTS);
    let mut n: usize = 0;
    let mut from: usize = 0;
    for i in 0..objects {
        let end = index(ends[i]);
        n += object_lists(
            &mut rows[n..room],
            &mut bases[n..room],
            &mut entries[from..end],
            &mut values[from..end],
            hints,
            collected,
            collected_values,
            book,
            fit,
            pairs,
            places,
            i,
            from as u32,
        )?;
        from = end;
    }
    Some(n)
}
