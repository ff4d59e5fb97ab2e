// Little-endian numbers in a slice of bytes.
ghost use Rattle.std.specs.Prelude.{◌≡◌, ◌+◌, ◌*◌, ◌≤◌, ◌<◌, ◌^◌, length};
ghost use Rattle.std.specs.Float.{binary64};
ghost use Rattle.std.specs.Float.Ieee.{of_bits};
ghost use Rattle.rules.specs.Bytes.{u32_at, i32_at, f64_at};

use numbers::integers::signed;

// A number of 32 bits as an index.
pub fn index(x: u32) -> usize
    ensures defined { (result ≡ x) × (result < 2 ^ 32) }
{
    x as usize
}

// The unsigned number in the four bytes from a place on.
pub fn u32_at(b: &[u8], at: usize) -> u32
    requires inside { at + 4 ≤ length b.now }
    ensures defined { result ≡ u32_at b.now at }
{
    u32::from_le_bytes([b[at], b[at + 1], b[at + 2], b[at + 3]])
}

// The signed number in the four bytes from a place on.
pub fn i32_at(b: &[u8], at: usize) -> i32
    requires inside { at + 4 ≤ length b.now }
    ensures defined { result ≡ i32_at b.now at }
{
    signed(u32_at(b, at))
}

fn u64_at(b: &[u8], at: usize) -> u64
    requires inside { at + 8 ≤ length b.now }
    ensures defined { result ≡ u32_at b.now at + 2 ^ 32 * u32_at b.now (at + 4) }
{
    u64::from(u32_at(b, at)) + 0x1_0000_0000 * u64::from(u32_at(b, at + 4))
}

// The float whose 64 bits these are; every NaN's bits give the one NaN.
pub fn float_of(n: u64) -> f64
    ensures defined { result ≡ of_bits binary64 n }
{
    if 0x7ff0_0000_0000_0000 < n % 0x8000_0000_0000_0000 {
        return 0.0 / 0.0;
    }
    f64::from_bits(n)
}

// The float in the eight bytes from a place on.
pub fn f64_at(b: &[u8], at: usize) -> f64
    requires inside { at + 8 ≤ length b.now }
    ensures defined { result ≡ f64_at b.now at }
{
    float_of(u64_at(b, at))
}
