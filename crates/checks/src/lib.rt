// M-111: another planner's listing beside a sheet: is it ours to the last bit, and if not, which line is the first that is not.
#![tactic(auto)]

ghost use Rattle.std.specs.Prelude.{◌≡◌, map, length};
ghost use Rattle.promises.specs.NoMemory.{book_in, fit_in};
ghost use Rattle.run.specs.Filled.{lent_of};
ghost use Rattle.calculate.specs.Given.{result_of};
ghost use Rattle.settled.specs.Lines.{line_of};
ghost use Rattle.checks.specs.Check.{check_rooms, checked, listed_done, Checks};
ghost use Rattle.checks.specs.Checked.{check_columns, verdict_in, counts_in, LeftBy};

use calculate::Outcome;
use clear::{KeptCounts, clear};
use columns::{
    AttributeRow, CollectedRow, EntryRow, PlainRow, SOURCE_FLOATS, SOURCE_WIDTH, States,
    TABLE_OBJECTS,
};
use given::lines::LineRow;
use info::header::{count_of, pairs_of, recording_of};
use judge::judged;
use lists::{rooms_of, set_sheet};
use order::WorkRow;
use shape::shape;
use verdict::CheckRefusal;

// Nothing stays.
const NO_COUNTS: KeptCounts = KeptCounts {
    objects: 0,
    collected: 0,
    rows: 0,
    entries: 0,
    plain: 0,
    sources: 0,
};

// How many elements of each list stay, of any bytes, any lists, any listing. After a refusal the columns may hold anything: who lent them clears them.
fn answered(
    states: &mut States,
    collected: &mut [CollectedRow],
    collected_values: &mut [f64],
    rows: &mut [AttributeRow],
    bases: &mut [f64],
    values: &mut [f64],
    work: &mut [WorkRow],
    entries: &mut [EntryRow],
    entry_values: &mut [f64],
    plain: &mut [PlainRow],
    sheet: &[u8],
    listing: &[LineRow],
) -> Result<KeptCounts, CheckRefusal>
    ensures verdict { let lists = check_columns collected collected_values rows bases values entries entry_values plain in
        let q = check_rooms (lent_of lists.entry) (length work.old) in
        verdict_in result ≡ checked sheet.now q (map line_of listing.now) }
    ensures left { let lists = check_columns collected collected_values rows bases values entries entry_values plain in
        let d = listed_done (book_in sheet.now) (fit_in sheet.now) (map line_of listing.now) in
        LeftBy (verdict_in result) (counts_in result) d states.new lists.entry lists.exit }
{
    shape(sheet)?;
    let pairs = pairs_of(sheet);
    let rooms = rooms_of(
        collected.len(),
        collected_values.len(),
        rows.len(),
        bases.len(),
        values.len(),
        work.len(),
        entries.len(),
        entry_values.len(),
        plain.len(),
    );
    let counts = set_sheet(
        states,
        collected,
        collected_values,
        rows,
        bases,
        entries,
        entry_values,
        plain,
        sheet,
        &pairs,
        rooms,
    )?;
    judged(
        values,
        work,
        states,
        rows,
        bases,
        entries,
        entry_values,
        sheet,
        &pairs,
        listing,
        counts.rows,
        recording_of(sheet, &pairs) == 1,
    )?;
    Ok(KeptCounts {
        objects: count_of(&pairs, TABLE_OBJECTS),
        collected: counts.collected,
        rows: counts.rows,
        entries: counts.entries,
        plain: counts.plain,
        sources: 0,
    })
}

// Number, place, every list and every state, whatever the bytes, the lists and the listing: nothing is required. The columns are lent by C, one by one.
pub fn dogma_check(
    states: &mut States,
    collected: &mut [CollectedRow],
    collected_values: &mut [f64],
    rows: &mut [AttributeRow],
    bases: &mut [f64],
    values: &mut [f64],
    work: &mut [WorkRow],
    entries: &mut [EntryRow],
    entry_values: &mut [f64],
    plain: &mut [PlainRow],
    sheet: &[u8],
    listing: &[LineRow],
) -> Outcome
    ensures the_definitions_verdict { let lists = check_columns collected collected_values rows bases values entries entry_values plain in
        let lines = map line_of listing.now in
        let given = result_of result states.new lists.exit in
        Checks sheet.now (lent_of lists.entry) (length work.old) lines given }
{
    let answer = answered(
        states,
        collected,
        collected_values,
        rows,
        bases,
        values,
        work,
        entries,
        entry_values,
        plain,
        sheet,
        listing,
    );
    let (counts, number, place) = match answer {
        Ok(counts) => (counts, 0, 0),
        Err(refusal) => (NO_COUNTS, refusal.number(), refusal.place()),
    };
    let mut sources = [[0u32; SOURCE_WIDTH]; 1];
    let mut floats = [[0.0; SOURCE_FLOATS]; 1];
    clear(
        states,
        collected,
        collected_values,
        rows,
        bases,
        values,
        entries,
        entry_values,
        plain,
        &mut sources,
        &mut floats,
        counts,
    );
    Outcome {
        number,
        place,
        collected: counts.collected as u64,
        rows: counts.rows as u64,
        entries: counts.entries as u64,
        plain: counts.plain as u64,
        sources: counts.sources as u64,
    }
}

pub mod judge;
pub mod lists;
pub mod verdict;
