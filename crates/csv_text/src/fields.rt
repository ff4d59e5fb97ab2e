// Fields and records of comma-separated text, put at a place of a lent text.
ghost use Rattle.std.specs.Prelude.{◌≡◌, [], ◌∷◌, ◌+◌, ◌*◌, ◌≤◌, length};
ghost use Rattle.laws.specs.Lists.{some?};
ghost use Rattle.rules.specs.Listing.{natural, integer, decimals};
ghost use Rattle.rules.specs.Number.{hundredths_of};
ghost use Rattle.listing.specs.Put.{Added};
ghost use Rattle.csv_text.specs.Csv.{class_of, special, twice, doubled, field, record_text};

use listing::{put_byte, put_integer, put_text, put_u32, put_value};

const QUOTE: u8 = 34;

const COMMA: u8 = 44;

const CR: u8 = 13;

const LF: u8 = 10;

// Whether a field with this byte is quoted; most bytes are above all that are special.
fn is_special(b: u8) -> bool
    ensures defined { result ≡ special (class_of b) }
{
    if COMMA < b {
        return false;
    }
    (b == QUOTE) | ((b == COMMA) | ((b == CR) | (b == LF)))
}

// Whether a field of these bytes is.
fn any_special(text: &[u8]) -> bool
    ensures defined { result ≡ some? (λ b. special (class_of b)) text.now }
{
    let mut found = false;
    for b in text {
        found |= is_special(*b);
    }
    found
}

// A byte between quotes: a quote twice, any other once.
fn put_twice(out: &mut [u8], at: usize, b: u8) -> usize
    requires room { at + 2 ≤ length out.old }
    ensures added { Added out at result (twice (class_of b) b []) }
    ensures within { result ≤ at + 2 }
{
    let next = put_byte(out, at, b);
    if b == QUOTE {
        return put_byte(out, next, b);
    }
    next
}

// Bytes with their quotes doubled.
fn put_doubled(out: &mut [u8], at: usize, text: &[u8]) -> usize
    requires room { at + 2 * length text.now ≤ length out.old }
    ensures added { Added out at result (doubled text.now) }
    ensures within { result ≤ at + 2 * length text.now }
{
    let mut end = at;
    for b in text {
        end = put_twice(out, end, *b);
    }
    end
}

// A field, quoted where one of its bytes asks for it.
fn put_field(out: &mut [u8], at: usize, text: &[u8]) -> usize
    requires room { at + 2 * length text.now + 2 ≤ length out.old }
    ensures added { Added out at result (field text.now) }
    ensures within { result ≤ at + 2 * length text.now + 2 }
{
    if any_special(text) {
        let next = put_byte(out, at, QUOTE);
        let end = put_doubled(out, next, text);
        return put_byte(out, end, QUOTE);
    }
    put_text(out, at, text)
}

// The record of a row, at the front of a text: object, attribute, label and value, with CRLF behind them.
pub fn put_record(out: &mut [u8], object: u32, id: i32, label: &[u8], value: f64) -> usize
    requires room { 172 ≤ length out.old }
    requires short { length label.now ≤ 64 }
    ensures added { let fields = natural object ∷ integer id ∷ label.now ∷ decimals (hundredths_of value) ∷ [] in
        Added out 0 result (record_text fields) }
    ensures within { result ≤ 172 }
{
    let first = put_u32(out, 0, object);
    let second = put_byte(out, first, COMMA);
    let after_id = put_integer(out, second, id);
    let third = put_byte(out, after_id, COMMA);
    let after_label = put_field(out, third, label);
    let fourth = put_byte(out, after_label, COMMA);
    let after_value = put_value(out, fourth, value);
    let ending = put_byte(out, after_value, CR);
    put_byte(out, ending, LF)
}
