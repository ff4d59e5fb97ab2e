// The text of a sheet: from the bytes that were read to the bytes that are to be written (01, "The listing").
#![tactic(auto)]

ghost use Rattle.std.specs.Prelude.{◌≡◌, ◌≤◌, length, take};
ghost use Rattle.rules.specs.Listing.{listing};
ghost use Rattle.rules.specs.Outcome.{outcome};
ghost use Rattle.listing.specs.Pieces.{Tells};
ghost use Rattle.listing.specs.Put.{Begins};
ghost use Rattle.text.specs.SheetText.{rooms, sheet_text};

use calculate::{Outcome, dogma_calculate};
use columns::{AttributeRow, ENTRY_WIDTH, OBJECTS, ROW_WIDTH, SOURCE_WIDTH};
use listing::{refusal, result_text};

// The longest sheet that is read.
pub const SHEET_BYTES: usize = 65536;

// The room that every list is lent.
pub const ROWS: usize = 4096;

// Room for the longest text: a head and a line for each row, of 40 bytes at most.
pub const TEXT_BYTES: usize = 163880;

// SHAPE is refusal 1 of `calculated`, whose numbers are C's.
const SHAPE: u64 = 1;

// A run with room for 4,096 in every list: its rows and their values, and what comes back.
pub fn calculated(
    rows: &mut [AttributeRow; ROWS],
    values: &mut [f64; ROWS],
    sheet: &[u8],
) -> Outcome
    ensures tells { let n = result.rows in
        Tells (outcome sheet.now rooms) result.number result.place n rows.new values.new }
    ensures few { result.rows ≤ 4096 }
{
    let mut states = [[0u32; 2]; OBJECTS];
    let mut collected = [[0u32; 14]; ROWS];
    let mut collected_values = [0.0; ROWS];
    let mut bases = [0.0; ROWS];
    let mut entries = [[0u32; ENTRY_WIDTH]; ROWS];
    let mut entry_values = [0.0; ROWS];
    let mut plain = [[0u32; 2]; ROWS];
    let mut sources = [[0u32; SOURCE_WIDTH]; ROWS];
    let mut source_values = [[0.0; 2]; ROWS];
    dogma_calculate(
        &mut states,
        &mut collected,
        &mut collected_values,
        rows,
        &mut bases,
        values,
        &mut entries,
        &mut entry_values,
        &mut plain,
        &mut sources,
        &mut source_values,
        sheet,
    )
}

// The text of what comes back of a run.
fn calculated_text(text: &mut [u8; TEXT_BYTES], sheet: &[u8]) -> usize
    ensures the_listing { Begins text.new result (listing (outcome sheet.now rooms)) }
{
    let mut rows = [[0u32; ROW_WIDTH]; ROWS];
    let mut values = [0.0; ROWS];
    let answer = calculated(&mut rows, &mut values, sheet);
    result_text(
        text,
        answer.number,
        answer.place,
        &rows,
        &values,
        answer.rows as usize,
    )
}

// The text of a sheet, at the front of a lent text, and where it ends; `more` says that not all of the input was read.
pub fn sheet_text(text: &mut [u8; TEXT_BYTES], sheet: &[u8], more: bool) -> usize
    ensures the_text { take result text.new ≡ sheet_text sheet.now more }
    ensures its_length { result ≡ length (sheet_text sheet.now more) }
    ensures inside { result ≤ length text.new }
{
    if more | (SHEET_BYTES < sheet.len()) {
        return refusal(text, SHAPE, 0);
    }
    calculated_text(text, sheet)
}
