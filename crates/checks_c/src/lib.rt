// The exported functions of `checks`: another planner's listing beside a sheet, for callers in C. Each calls the library's function, and says what it says.
#![tactic(auto)]

ghost use Rattle.std.specs.Prelude.{map, length};
ghost use Rattle.run.specs.Filled.{lent_of};
ghost use Rattle.calculate.specs.Given.{result_of};
ghost use Rattle.settled.specs.Lines.{line_of};
ghost use Rattle.checks.specs.Check.{Checks};
ghost use Rattle.checks.specs.Checked.{check_columns};

use calculate::Outcome;
use columns::{AttributeRow, CollectedRow, EntryRow, PlainRow, States};
use given::lines::LineRow;
use order::WorkRow;

// Number, place, every list and every state, whatever the bytes, the lists and the listing: nothing is required.
#[unsafe(no_mangle)]
pub extern "C" fn dogma_check(
    states: &mut States,
    collected: &mut [CollectedRow],
    collected_values: &mut [f64],
    rows: &mut [AttributeRow],
    bases: &mut [f64],
    values: &mut [f64],
    work: &mut [WorkRow],
    entries: &mut [EntryRow],
    entry_values: &mut [f64],
    plain: &mut [PlainRow],
    sheet: &[u8],
    listing: &[LineRow],
) -> Outcome
    ensures the_definitions_verdict { let lists = check_columns collected collected_values rows bases values entries entry_values plain in
        let lines = map line_of listing.now in
        let given = result_of result states.new lists.exit in
        Checks sheet.now (lent_of lists.entry) (length work.old) lines given }
{
    checks::dogma_check(
        states,
        collected,
        collected_values,
        rows,
        bases,
        values,
        work,
        entries,
        entry_values,
        plain,
        sheet,
        listing,
    )
}
