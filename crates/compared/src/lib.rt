// The program for M-111, from the bytes of a sheet and of a listing's text to the line to be written.
#![tactic(auto)]

ghost use Rattle.std.specs.Prelude.{◌≡◌, map, ℕ, ◌+◌, ◌*◌, ◌≤◌, length};
ghost use Rattle.rules.specs.Answer.{Res};
ghost use Rattle.rules.specs.Outcome.{Done, outcome};
ghost use Rattle.settled.specs.Lines.{line_of};
ghost use Rattle.listing.specs.Pieces.{Tells};
ghost use Rattle.listing.specs.Put.{Added, Begins};
ghost use Rattle.figures.specs.Figures.{longest_fields};
ghost use Rattle.said.specs.Said.{says_of, SaidWithin};
ghost use Rattle.text.specs.SheetText.{rooms};
ghost use Rattle.checks.specs.Check.{checked, number_of, place_of};
ghost use Rattle.compared.specs.CheckText.{place_text, listed_text, run_text, loop_text, bad_row, check_lent, verdict_text, check_text};

use calculate::Outcome;
use checks::dogma_check;
use columns::{AttributeRow, ENTRY_WIDTH, OBJECTS, ROW_ATTRIBUTE, ROW_OBJECT, ROW_WIDTH};
use figures::put_fields;
use given::lines::{LINE_ATTRIBUTE, LINE_HIGH, LINE_LOW, LINE_OBJECT, LineRow};
use lines::{BadLine, figure_rows};
use listing::{put_byte, put_text, put_u32, refusal};
use numbers::integers::signed;
use said::{RefusalLine, bad_line};
use std::num::f64_to_bits_with_nan;
use text::{ROWS, calculated};

// One line more than a run has rows: a listing that is too long is judged too.
const LINES: usize = 4097;

// Room for the longest line.
pub const LINE_BYTES: usize = 256;

// The numbers that `dogma_check` gives, as C has them, of refusals that are not the engine's.
const LOOP: u64 = 10;

const LISTING: u64 = 15;

// The verdict, with room for 4,096 in every list.
fn judged(sheet: &[u8], listing: &[LineRow]) -> Outcome
    ensures number { result.number ≡ number_of (checked sheet.now check_lent (map line_of listing.now)) }
    ensures place { result.place ≡ place_of (checked sheet.now check_lent (map line_of listing.now)) }
{
    let mut states = [[0u32; 2]; OBJECTS];
    let mut collected = [[0u32; 14]; ROWS];
    let mut collected_values = [0.0; ROWS];
    let mut rows = [[0u32; 6]; ROWS];
    let mut bases = [0.0; ROWS];
    let mut values = [0.0; ROWS];
    let mut work = [[0u32; 4]; ROWS];
    let mut entries = [[0u32; ENTRY_WIDTH]; ROWS];
    let mut entry_values = [0.0; ROWS];
    let mut plain = [[0u32; 2]; ROWS];
    dogma_check(
        &mut states,
        &mut collected,
        &mut collected_values,
        &mut rows,
        &mut bases,
        &mut values,
        &mut work,
        &mut entries,
        &mut entry_values,
        &mut plain,
        sheet,
        listing,
    )
}

// An object's number or a line's.
fn put_place(out: &mut [u8], at: usize, n: u64) -> usize
    requires room { at + 10 ≤ length out.old }
    ensures added { Added out at result (place_text n) }
    ensures within { result ≤ at + 10 }
{
    if n < 0x1_0000_0000 {
        return put_u32(out, at, n as u32);
    }
    put_byte(out, at, b'*')
}

// A value's bits by their halves.
fn whole_bits(low: u32, high: u32) -> u64
    ensures defined { result ≡ low + 4294967296 * high }
{
    low as u64 + 0x1_0000_0000 * high as u64
}

// What stands at a place of the listing.
fn put_listed(out: &mut [u8], at: usize, listing: &[LineRow], place: u64) -> usize
    requires room { at + longest_fields ≤ length out.old }
    ensures added { Added out at result (listed_text listing.now place) }
    ensures within { result ≤ at + longest_fields }
{
    let Some(line) = listing.get(place as usize) else {
        return put_text(out, at, b"no line");
    };
    let bits = whole_bits(line[LINE_LOW], line[LINE_HIGH]);
    put_fields(
        out,
        at,
        line[LINE_OBJECT],
        signed(line[LINE_ATTRIBUTE]),
        bits,
    )
}

// What a run has there, of what came back.
fn put_row(
    out: &mut [u8],
    at: usize,
    number: u64,
    rows: &[AttributeRow],
    values: &[f64],
    n: usize,
    place: u64,
) -> usize
    requires room { at + longest_fields ≤ length out.old }
    requires counted { (n ≤ length rows.now) × (n ≤ length values.now) }
    ensures added { (o : Res Done) (p : ℕ) → Tells o number p n rows.now values.now → Added out at result (run_text o place) }
    ensures within { result ≤ at + longest_fields }
{
    let i = place as usize;
    if (number == 0) & (i < n) {
        let row = rows[i];
        let value = values[i];
        let bits = f64_to_bits_with_nan(value);
        return put_fields(out, at, row[ROW_OBJECT], signed(row[ROW_ATTRIBUTE]), bits);
    }
    put_text(out, at, b"no row")
}

// What a run of the sheet has at a place, with room for 4,096 in every list.
fn put_run(out: &mut [u8], at: usize, sheet: &[u8], place: u64) -> usize
    requires room { at + longest_fields ≤ length out.old }
    ensures added { Added out at result (run_text (outcome sheet.now rooms) place) }
    ensures within { result ≤ at + longest_fields }
{
    let mut rows = [[0u32; ROW_WIDTH]; ROWS];
    let mut values = [0.0; ROWS];
    let answer = calculated(&mut rows, &mut values, sheet);
    put_row(
        out,
        at,
        answer.number,
        &rows,
        &values,
        answer.rows as usize,
        place,
    )
}

// The line of LOOP.
fn loop_line(out: &mut [u8], place: u64) -> usize
    requires room { 22 ≤ length out.old }
    ensures the_line { Begins out.new result (loop_text place) }
{
    let number = put_text(out, 0, b"refused 10 ");
    let end = put_place(out, number, place);
    put_byte(out, end, b'\n')
}

// The line of LISTING: where, what stands there, and what a run has there.
fn bad_row(out: &mut [u8], sheet: &[u8], listing: &[LineRow], place: u64) -> usize
    requires room { 121 ≤ length out.old }
    ensures the_line { Begins out.new result (bad_row sheet.now listing.now place) }
{
    let number = put_text(out, 0, b"refused 15 ");
    let stands = put_place(out, number, place);
    let line = put_text(out, stands, b": listed ");
    let gives = put_listed(out, line, listing, place);
    let row = put_text(out, gives, b", a run has ");
    let end = put_run(out, row, sheet, place);
    put_byte(out, end, b'\n')
}

// The line of a verdict.
fn verdict_line(out: &mut [u8], sheet: &[u8], listing: &[LineRow]) -> usize
    requires room { 121 ≤ length out.old }
    ensures the_line { let ls = listing.now in
        Begins out.new result (verdict_text sheet.now ls (checked sheet.now check_lent (map line_of ls))) }
{
    let verdict = judged(sheet, listing);
    let place = verdict.place;
    match verdict.number {
        0 => put_text(out, 0, b"accepted\n"),
        LOOP => loop_line(out, place),
        LISTING => bad_row(out, sheet, listing, place),
        number => refusal(out, number, place),
    }
}

// What the program says, at the front of a lent line.
pub fn check_text(
    out: &mut [u8; LINE_BYTES],
    sheet: &[u8],
    text: &[u8],
) -> Result<usize, RefusalLine>
    requires short { length text.now ≤ 4294967295 }
    ensures says { says_of result out.new ≡ check_text sheet.now text.now }
    ensures inside { SaidWithin result (length out.new) }
{
    let mut lines = [[0u32; 4]; LINES];
    match figure_rows(&mut lines, text) {
        Ok(n) => Ok(verdict_line(out, sheet, &lines[..n])),
        Err(BadLine { line }) => Err(bad_line(
            out,
            b"listing, line ",
            line as u32,
            b": not an object, an attribute and 16 hexadecimal digits\n",
        )),
    }
}
