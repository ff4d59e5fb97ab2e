// Numbers as bytes: each function writes at a place of the lent bytes and gives the place after it.
ghost use Rattle.std.specs.Prelude.{◌≡◌, true, ◌+◌, ◌*◌, ◌≤◌, length};
ghost use Rattle.laws.specs.Floats.{finite};
ghost use Rattle.listing.specs.Put.{Added};
ghost use Rattle.tables.specs.Layout.{word, words, float};

// One number, little-endian.
pub fn put_word(bytes: &mut [u8], at: usize, x: u32) -> usize
    requires room { at + 4 ≤ length bytes.old }
    ensures written { Added bytes at result (word x) }
    ensures end { result ≡ at + 4 }
{
    bytes[at..at + 4].copy_from_slice(&x.to_le_bytes());
    at + 4
}

// A row of numbers, or a part of one.
pub fn put_words(bytes: &mut [u8], at: usize, numbers: &[u32]) -> usize
    requires room { at + 4 * length numbers.now ≤ length bytes.old }
    ensures written { Added bytes at result (words numbers.now) }
    ensures end { result ≡ at + 4 * length numbers.now }
{
    let mut place = at;
    for x in numbers {
        place = put_word(bytes, place, *x);
    }
    place
}

// A float by its bits.
pub fn put_float(bytes: &mut [u8], at: usize, x: f64) -> usize
    requires room { at + 8 ≤ length bytes.old }
    requires finite { finite x ≡ true }
    ensures written { Added bytes at result (float x) }
    ensures end { result ≡ at + 8 }
{
    bytes[at..at + 8].copy_from_slice(&x.to_bits().to_le_bytes());
    at + 8
}
