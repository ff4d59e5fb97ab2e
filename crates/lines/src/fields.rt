// Numbers on a line of text, one after another from a place on.
ghost use Rattle.std.specs.Prelude.{◌≡◌, true, ◌-◌, ◌≤◌, ◌<◌, length, drop, IfSome};
ghost use Rattle.lines.specs.Fields as rule;
ghost use Rattle.lines.specs.Reads.{largest, digits_of, field_of};

// Digits from a place on: their number, and the place behind them.
#[derive(Clone, Copy)]
struct Number {
    value: u64,
    next: usize,
}

// A field from a place on: its value, and the place behind it.
#[derive(Clone, Copy)]
pub struct Field {
    pub value: u32,
    pub next: usize,
}

// A digit's value, hexadecimal ones of either case; 16 for any other byte.
fn digit(c: u8) -> u64
    ensures defined { result ≡ rule.digit c }
    ensures at_most { result ≤ 16 }
{
    match c {
        b'0'..=b'9' => u64::from(c - b'0'),
        b'a'..=b'f' => u64::from(c - b'a') + 10,
        b'A'..=b'F' => u64::from(c - b'A') + 10,
        _ => 16,
    }
}

// So many digits of a base at most.
fn digits(text: &[u8], base: u64, most: usize, at: usize) -> Number
    requires inside { at ≤ length text.now }
    requires few { most ≤ 10 }
    requires small { base ≤ 16 }
    ensures defined { digits_of result text.now ≡ rule.digits base most 0 (drop at text.now) }
    ensures onward { at ≤ result.next }
    ensures inside { result.next ≤ length text.now }
    ensures at_most { result.value ≤ largest (result.next - at) }
{
    let end = text.len().min(at + most);
    let mut value = 0;
    for i in at..end {
        let d = digit(text[i]);
        if base <= d {
            return Number { value, next: i };
        }
        value = value * base + d;
    }
    Number { value, next: end }
}

// Whether a byte stands at a place.
fn begins(text: &[u8], at: usize, byte: u8) -> bool
    ensures defined { result ≡ rule.begins byte (drop at text.now) }
    ensures inside { result ≡ true → at < length text.now }
{
    text.get(at).is_some_and(|b| *b == byte)
}

// A natural number and a space, up to a greatest number.
fn natural(text: &[u8], most: u32, at: usize) -> Option<Field>
    requires inside { at ≤ length text.now }
    ensures defined { field_of result text.now ≡ rule.natural most (drop at text.now) }
    ensures inside { IfSome result (λ f. f.next ≤ length text.now) }
{
    let Number { value, next } = digits(text, 10, 10, at);
    if next == at || u64::from(most) < value || !begins(text, next, b' ') {
        return None;
    }
    Some(Field {
        value: value as u32,
        next: next + 1,
    })
}

// An object's number and a space.
pub fn object(text: &[u8], at: usize) -> Option<Field>
    requires inside { at ≤ length text.now }
    ensures defined { field_of result text.now ≡ rule.object_in (drop at text.now) }
    ensures inside { IfSome result (λ f. f.next ≤ length text.now) }
{
    natural(text, u32::MAX, at)
}

// An attribute's 32 bits and a space.
pub fn id(text: &[u8], at: usize) -> Option<Field>
    requires inside { at ≤ length text.now }
    ensures defined { field_of result text.now ≡ rule.id_in (drop at text.now) }
    ensures inside { IfSome result (λ f. f.next ≤ length text.now) }
{
    if begins(text, at, b'-') {
        let Field { value, next } = natural(text, 0x8000_0000, at + 1)?;
        return Some(Field {
            value: value.wrapping_neg(),
            next,
        });
    }
    natural(text, 0x7fff_ffff, at)
}

// Half of a value's bits: eight hexadecimal digits.
pub fn half(text: &[u8], at: usize) -> Option<Field>
    requires inside { at ≤ length text.now }
    ensures defined { field_of result text.now ≡ rule.half_in (drop at text.now) }
    ensures inside { IfSome result (λ f. f.next ≤ length text.now) }
{
    let Number { value, next } = digits(text, 16, 8, at);
    if next - at != 8 {
        return None;
    }
    Some(Field {
        value: value as u32,
        next,
    })
}
