// A sheet that has come to its values, and a listing: LOOP, then rows, then values.
ghost use Rattle.std.specs.Prelude.{◌≡◌, map, ◌≤◌, ◌<◌, ◌^◌, length};
ghost use Rattle.rules.specs.Outcome.{world_of};
ghost use Rattle.rules.specs.Sheet.{book_of, fit_of};
ghost use Rattle.info.specs.Sound.{SoundBook, SoundFit};
ghost use Rattle.values.specs.Setting.{RowsListed};
ghost use Rattle.settled.specs.Lines.{line_of};
ghost use Rattle.checks.specs.Check.{checked_in};
ghost use Rattle.checks.specs.Checked.{run, LaidIf};

use super::verdict::CheckRefusal;
use columns::{AttributeRow, EntryRow, States, TablePairs};
use given::first_bad;
use given::lines::LineRow;
use loops::loop_of;
use memory::ReadColumns;
use needs::NeedColumns;
use order::WorkRow;
use reading::stretches::{set_limits, set_stretches};

// The verdict: where the listing is accepted the value column has its values.
pub fn judged(
    values: &mut [f64],
    work: &mut [WorkRow],
    states: &States,
    rows: &[AttributeRow],
    bases: &[f64],
    entries: &[EntryRow],
    entry_values: &[f64],
    sheet: &[u8],
    pairs: &TablePairs,
    listing: &[LineRow],
    n: usize,
    recording: bool,
) -> Result<(), CheckRefusal>
    requires sound_book { SoundBook sheet.now pairs.now }
    requires sound_fit { SoundFit sheet.now pairs.now }
    requires listed { RowsListed (book_of sheet.now pairs.now) (fit_of sheet.now pairs.now) n (run recording)
        states.now rows.now bases.now entries.now entry_values.now }
    requires few { (n ≤ length values.old) × ((n ≤ length work.old) × (n < 2 ^ 32)) }
    ensures defined { let k = book_of sheet.now pairs.now in
        let f = fit_of sheet.now pairs.now in
        result ≡ checked_in (world_of k f 0) (map line_of listing.now) }
    ensures laid { LaidIf result n listing.now values.old values.new }
{
    let rows = &rows[..n];
    let stretches = set_stretches(rows);
    let limits = set_limits(sheet, pairs);
    let needs = NeedColumns {
        book: sheet,
        pairs,
        stretches: &stretches,
        limits: &limits,
        rows,
        entries,
    };
    if let Some(object) = loop_of(work, needs) {
        return Err(CheckRefusal::Loop(object));
    }
    let columns = ReadColumns {
        book: sheet,
        pairs,
        states,
        stretches: &stretches,
        limits: &limits,
        rows,
        bases: &bases[..n],
        entries,
        entry_values,
    };
    if let Some(line) = first_bad(&mut values[..n], &columns, listing, recording) {
        return Err(CheckRefusal::Listing(line));
    }
    Ok(())
}
