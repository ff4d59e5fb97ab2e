// The text of a result, in pieces: each function writes at a place of a lent text and gives the place after it.
#![tactic(auto)]

ghost use Rattle.std.specs.Prelude.{◌≡◌, false, [], ◌∷◌, ◌+◌, ◌*◌, ◌≤◌, ◌<◌, length};
ghost use Rattle.rules.specs.Listing as L;
ghost use Rattle.rules.specs.Listing.{natural, integer, minus_if, decimals, listing};
ghost use Rattle.rules.specs.Number.{hundredths_of, rounded};
ghost use Rattle.rules.specs.Answer as answer;
ghost use Rattle.rules.specs.Answer.{Res, ok, refused};
ghost use Rattle.rules.specs.Outcome.{Done};
ghost use Rattle.rules.specs.Dispatch.{Row};
ghost use Rattle.listing.specs.Put.{Added, Begins};
ghost use Rattle.rules.specs.declared.Refusal.{Refusal};
ghost use Rattle.rules.specs.Answer.{Refused};
ghost use Rattle.listing.specs.Pieces.{longest, longest_refusal, head_of, Shown, Tells};

use columns::{AttributeRow, ROW_ATTRIBUTE, ROW_OBJECT};
use numbers::hundredths::in_hundredths;
use numbers::integers::{bits, signed};
use rules::Hundredths;

// One byte.
pub fn put_byte(out: &mut [u8], at: usize, x: u8) -> usize
    requires room { at < length out.old }
    ensures added { Added out at result (x ∷ []) }
    ensures next { result ≡ at + 1 }
{
    out[at] = x;
    at + 1
}

// A natural number: the digits of its tenth, then its last.
fn put_natural(out: &mut [u8], at: usize, n: u64) -> usize
    requires room { at + length (natural n) ≤ length out.old }
    ensures added { Added out at result (natural n) }
{
    let digit = 48 + (n % 10) as u8;
    if n < 10 {
        return put_byte(out, at, digit);
    }
    let next = put_natural(out, at, n / 10);
    put_byte(out, next, digit)
}

// A number of 32 bits.
pub fn put_u32(out: &mut [u8], at: usize, n: u32) -> usize
    requires room { at + 10 ≤ length out.old }
    ensures added { Added out at result (natural n) }
    ensures within { result ≤ at + 10 }
{
    put_natural(out, at, n as u64)
}

// A number of 64 bits.
fn put_u64(out: &mut [u8], at: usize, n: u64) -> usize
    requires room { at + 20 ≤ length out.old }
    ensures added { Added out at result (natural n) }
    ensures within { result ≤ at + 20 }
{
    put_natural(out, at, n)
}

// A signed number.
pub fn put_integer(out: &mut [u8], at: usize, x: i32) -> usize
    requires room { at + 11 ≤ length out.old }
    ensures added { Added out at result (integer x) }
    ensures within { result ≤ at + 11 }
{
    let pattern = bits(x) as u64;
    if pattern < 0x8000_0000 {
        return put_natural(out, at, pattern);
    }
    let next = put_byte(out, at, b'-');
    put_natural(out, next, 0x1_0000_0000 - pattern)
}

// A minus, where there is one.
fn put_minus(out: &mut [u8], at: usize, minus: bool) -> usize
    requires room { at + length (minus_if minus) ≤ length out.old }
    ensures added { Added out at result (minus_if minus) }
{
    if minus {
        return put_byte(out, at, b'-');
    }
    at
}

// Hundredths with no minus: the whole part, and two digits behind the point.
fn put_rounded(out: &mut [u8], at: usize, count: u64) -> usize
    requires room { at + length (decimals (rounded false count)) ≤ length out.old }
    ensures added { Added out at result (decimals (rounded false count)) }
{
    let point = put_natural(out, at, count / 100);
    let tenths = put_byte(out, point, b'.');
    let last = put_byte(out, tenths, 48 + (count / 10 % 10) as u8);
    put_byte(out, last, 48 + (count % 10) as u8)
}

// A value's hundredths, or a star.
fn put_hundredths(out: &mut [u8], at: usize, value: Option<Hundredths>) -> usize
    requires room { at + length (decimals value) ≤ length out.old }
    ensures added { Added out at result (decimals value) }
{
    match value {
        None => put_byte(out, at, b'*'),
        Some(h) => {
            let next = put_minus(out, at, h.minus);
            put_rounded(out, next, h.count)
        }
    }
}

// A value with two decimals.
pub fn put_value(out: &mut [u8], at: usize, value: f64) -> usize
    requires room { at + 16 ≤ length out.old }
    ensures added { Added out at result (decimals (hundredths_of value)) }
    ensures within { result ≤ at + 16 }
{
    put_hundredths(out, at, in_hundredths(value))
}

// Bytes as they are.
pub fn put_text(out: &mut [u8], at: usize, text: &[u8]) -> usize
    requires room { at + length text.now ≤ length out.old }
    ensures added { Added out at result text.now }
    ensures next { result ≡ at + length text.now }
{
    let end = at + text.len();
    out[at..end].copy_from_slice(text);
    end
}

// The first line of a listing of so many rows.
fn head(out: &mut [u8], rows: u64) -> usize
    requires room { longest ≤ length out.old }
    ensures added { Added out 0 result (head_of rows) }
    ensures within { result ≤ longest }
{
    let count = put_text(out, 0, b"rows ");
    let end = put_u64(out, count, rows);
    put_byte(out, end, b'\n')
}

// A row's line.
fn line(out: &mut [u8], at: usize, object: u32, id: i32, value: f64) -> usize
    requires room { at + longest ≤ length out.old }
    ensures added { (row : Row) → row.object ≡ object → row.id ≡ id → Added out at result (L.line row value) }
    ensures within { result ≤ at + longest }
{
    let space = put_u32(out, at, object);
    let attribute = put_byte(out, space, b' ');
    let space = put_integer(out, attribute, id);
    let number = put_byte(out, space, b' ');
    let line_end = put_value(out, number, value);
    put_byte(out, line_end, b'\n')
}

// The one line of a refusal, at the front of a text.
pub fn refusal(out: &mut [u8], number: u64, place: u64) -> usize
    requires room { longest_refusal ≤ length out.old }
    ensures the_line { (x : Refusal) → answer.number (Refused x) ≡ number → answer.place (Refused x) ≡ place
        → Begins out.new result (listing (refused x)) }
{
    let first = put_text(out, 0, b"refused ");
    let space = put_u64(out, first, number);
    let second = put_byte(out, space, b' ');
    let last = put_u64(out, second, place);
    put_byte(out, last, b'\n')
}

// The listing of n rows, at the front of a text: the head, and then a line for each.
fn rows_listed(out: &mut [u8], rows: &[AttributeRow], values: &[f64], n: usize) -> usize
    requires room { longest * (n + 1) ≤ length out.old }
    requires counted { (n ≤ length rows.now) × (n ≤ length values.now) }
    ensures the_lines { (d : Done) → Shown d n rows.now values.now → Begins out.new result (listing (ok d)) }
{
    let mut end = head(out, n as u64);
    for next in 0..n {
        let row = rows[next];
        let value = values[next];
        end = line(out, end, row[ROW_OBJECT], signed(row[ROW_ATTRIBUTE]), value);
    }
    end
}

// The text of what came back, at the front of a text: number 0 is a listing of n rows, another a refusal.
pub fn result_text(
    out: &mut [u8],
    number: u64,
    place: u64,
    rows: &[AttributeRow],
    values: &[f64],
    n: usize,
) -> usize
    requires room { (longest * (n + 1) ≤ length out.old) × (longest_refusal ≤ length out.old) }
    requires counted { (n ≤ length rows.now) × (n ≤ length values.now) }
    ensures the_listing { (o : Res Done) → Tells o number place n rows.now values.now
        → Begins out.new result (listing o) }
{
    if number == 0 {
        return rows_listed(out, rows, values, n);
    }
    refusal(out, number, place)
}
