// A run's rows as the listing that `checker` reads: object, attribute, and the value's bits as 16 hexadecimal digits.
#![tactic(auto)]

ghost use Rattle.std.specs.Prelude.{◌≡◌, ◌+◌, ◌*◌, ◌≤◌, length};
ghost use Rattle.rules.specs.Answer.{Res, ok};
ghost use Rattle.rules.specs.Dispatch.{Row};
ghost use Rattle.rules.specs.Outcome.{Done};
ghost use Rattle.listing.specs.Pieces.{longest_refusal, Shown, Tells};
ghost use Rattle.listing.specs.Put.{Added, Begins};
ghost use Rattle.figures.specs.Figures as rule;
ghost use Rattle.figures.specs.Figures.{longest, longest_fields, bits_text, fields, figures_text};

use columns::{AttributeRow, ROW_ATTRIBUTE, ROW_OBJECT};
use listing::{put_byte, put_integer, put_text, put_u32, refusal};
use numbers::integers::signed;
use std::num::f64_to_bits_with_nan;

// 64 bits as hexadecimal digits.
fn put_bits(out: &mut [u8], at: usize, bits: u64) -> usize
    requires room { at + 16 ≤ length out.old }
    ensures added { Added out at result (bits_text bits) }
    ensures within { result ≤ at + 16 }
{
    let mut digits = [0u8; 16];
    let n = io::hex(bits, 16, &mut digits);
    put_text(out, at, &digits[..n])
}

// A line without its end.
pub fn put_fields(out: &mut [u8], at: usize, object: u32, id: i32, bits: u64) -> usize
    requires room { at + longest_fields ≤ length out.old }
    ensures added { Added out at result (fields object id bits) }
    ensures within { result ≤ at + longest_fields }
{
    let space = put_u32(out, at, object);
    let attribute = put_byte(out, space, b' ');
    let space = put_integer(out, attribute, id);
    let number = put_byte(out, space, b' ');
    put_bits(out, number, bits)
}

// A row's line.
fn figure(out: &mut [u8], at: usize, object: u32, id: i32, value: f64) -> usize
    requires room { at + longest ≤ length out.old }
    ensures added { (row : Row) → row.object ≡ object → row.id ≡ id → Added out at result (rule.figure row value) }
    ensures within { result ≤ at + longest }
{
    let bits = f64_to_bits_with_nan(value);
    let line_end = put_fields(out, at, object, id, bits);
    put_byte(out, line_end, b'\n')
}

// The lines of n rows, at the front of a text.
fn rows_figured(out: &mut [u8], rows: &[AttributeRow], values: &[f64], n: usize) -> usize
    requires room { longest * n ≤ length out.old }
    requires counted { (n ≤ length rows.now) × (n ≤ length values.now) }
    ensures the_lines { (d : Done) → Shown d n rows.now values.now → Begins out.new result (figures_text (ok d)) }
{
    let mut end = 0;
    for next in 0..n {
        let row = rows[next];
        let value = values[next];
        end = figure(out, end, row[ROW_OBJECT], signed(row[ROW_ATTRIBUTE]), value);
    }
    end
}

// The figures of what came back, at the front of a text: number 0 is n rows, another a refusal.
pub fn figures_text(
    out: &mut [u8],
    number: u64,
    place: u64,
    rows: &[AttributeRow],
    values: &[f64],
    n: usize,
) -> usize
    requires room { (longest * n ≤ length out.old) × (longest_refusal ≤ length out.old) }
    requires counted { (n ≤ length rows.now) × (n ≤ length values.now) }
    ensures the_figures { (o : Res Done) → Tells o number place n rows.now values.now
        → Begins out.new result (figures_text o) }
{
    if number == 0 {
        return rows_figured(out, rows, values, n);
    }
    refusal(out, number, place)
}
