// The program `sheet`, from the bytes read to the bytes to be written: 01's listing, or the one that `checker` reads.
#![tactic(auto)]

ghost use Rattle.std.specs.Prelude.{◌≡◌, ◌≤◌, length, take};
ghost use Rattle.rules.specs.Outcome.{outcome};
ghost use Rattle.listing.specs.Put.{Begins};
ghost use Rattle.text.specs.SheetText.{rooms};
ghost use Rattle.figures.specs.Figures.{figures_text};
ghost use Rattle.listed.specs.Listed.{sheet_figures, asked};

use columns::ROW_WIDTH;
use figures::figures_text;
use listing::refusal;
use text::{ROWS, SHEET_BYTES, TEXT_BYTES, calculated, sheet_text};

// SHAPE is refusal 1 of `calculated`, whose numbers are C's.
const SHAPE: u64 = 1;

// The figures of what comes back of a run with room for 4,096 in every list.
fn calculated_figures(text: &mut [u8; TEXT_BYTES], sheet: &[u8]) -> usize
    ensures the_figures { Begins text.new result (figures_text (outcome sheet.now rooms)) }
{
    let mut rows = [[0u32; ROW_WIDTH]; ROWS];
    let mut values = [0.0; ROWS];
    let answer = calculated(&mut rows, &mut values, sheet);
    figures_text(
        text,
        answer.number,
        answer.place,
        &rows,
        &values,
        answer.rows as usize,
    )
}

// The figures of a sheet, at the front of a lent text, and where they end; `more` says that not all of the input was read.
fn sheet_figures(text: &mut [u8; TEXT_BYTES], sheet: &[u8], more: bool) -> usize
    ensures the_text { take result text.new ≡ sheet_figures sheet.now more }
    ensures inside { result ≤ length text.new }
{
    if more | (SHEET_BYTES < sheet.len()) {
        return refusal(text, SHAPE, 0);
    }
    calculated_figures(text, sheet)
}

// What the program `sheet` writes: the figures where they are asked for, else 01's listing.
pub fn asked_text(text: &mut [u8; TEXT_BYTES], sheet: &[u8], more: bool, bits: bool) -> usize
    ensures the_text { take result text.new ≡ asked bits sheet.now more }
    ensures inside { result ≤ length text.new }
{
    if bits {
        return sheet_figures(text, sheet, more);
    }
    sheet_text(text, sheet, more)
}
