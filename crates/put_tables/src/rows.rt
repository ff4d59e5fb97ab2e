// The tables, record by record.
ghost use Rattle.std.specs.Prelude.{◌≡◌, ◌+◌, ◌*◌, ◌≤◌, length};
ghost use Rattle.listing.specs.Put.{Added};
ghost use Rattle.put_tables.specs.Rows.{row_bytes, values_bytes, attributes_bytes, Beside};

use super::words::{put_float, put_word, put_words};
use columns::AttributeFields;

// Table 1.
pub fn put_attributes(
    bytes: &mut [u8],
    at: usize,
    attributes: &[AttributeFields],
    defaults: &[f64],
) -> usize
    requires room { at + 24 * length attributes.now ≤ length bytes.old }
    requires beside { Beside attributes.now defaults.now }
    ensures written { Added bytes at result (attributes_bytes attributes defaults) }
    ensures end { result ≡ at + 24 * length attributes.now }
{
    let mut place = at;
    for (k, numbers) in attributes.iter().enumerate() {
        let middle = put_words(bytes, place, &numbers[..2]);
        let back = put_float(bytes, middle, defaults[k]);
        place = put_words(bytes, back, &numbers[2..]);
    }
    place
}

// Tables 2 to 6 and 10: rows of N numbers.
pub fn put_rows<const N: usize>(bytes: &mut [u8], at: usize, rows: &[[u32; N]]) -> usize
    requires room { at + 4 * N * length rows.now ≤ length bytes.old }
    ensures written { Added bytes at result (row_bytes N rows) }
    ensures end { result ≡ at + 4 * N * length rows.now }
{
    let mut place = at;
    for numbers in rows {
        place = put_words(bytes, place, numbers);
    }
    place
}

// Tables 7 and 9: numbers, and a float beside each.
pub fn put_values(bytes: &mut [u8], at: usize, ids: &[u32], values: &[f64]) -> usize
    requires room { at + 12 * length ids.now ≤ length bytes.old }
    requires beside { Beside ids.now values.now }
    ensures written { Added bytes at result (values_bytes ids values) }
    ensures end { result ≡ at + 12 * length ids.now }
{
    let mut place = at;
    for (k, id) in ids.iter().enumerate() {
        let next = put_word(bytes, place, *id);
        place = put_float(bytes, next, values[k]);
    }
    place
}
