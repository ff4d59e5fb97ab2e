// The header: ten pairs (count, byte offset), three category numbers, depth and recording. Tables go by their numbers, 1 to 10.
ghost use Rattle.std.specs.Prelude.{◌≡◌, ◌+◌, ◌≤◌, ◌<◌, ◌^◌, [], ◌∷◌, length};
ghost use Rattle.rules.specs.Bytes.{u32_at, i32_at, pairs_of, count_of, offset_of, categories_at, depth_at};

use super::little_endian::{i32_at, index, u32_at};
use columns::{PAIR_COUNT, PAIR_OFFSET, TABLE_ATTRIBUTES, TABLE_OBJECTS, TablePair, TablePairs};

// The pair at a byte.
pub fn pair_at(b: &[u8], at: usize) -> TablePair
    requires inside { at + 8 ≤ length b.now }
    ensures defined { result ≡ u32_at b.now at ∷ u32_at b.now (at + 4) ∷ [] }
{
    [u32_at(b, at), u32_at(b, at + 4)]
}

// The ten pairs of a sheet, by value.
pub fn pairs_of(b: &[u8]) -> TablePairs
    requires a_header { 100 ≤ length b.now }
    ensures defined { result ≡ pairs_of b.now }
{
    [
        pair_at(b, 0),
        pair_at(b, 8),
        pair_at(b, 16),
        pair_at(b, 24),
        pair_at(b, 32),
        pair_at(b, 40),
        pair_at(b, 48),
        pair_at(b, 56),
        pair_at(b, 64),
        pair_at(b, 72),
    ]
}

// How many records a table has.
pub fn count_of(pairs: &TablePairs, t: usize) -> usize
    requires a_table { (1 ≤ t) × (t ≤ 10) }
    ensures defined { result ≡ count_of pairs.now t }
{
    index(pairs[t - 1][PAIR_COUNT])
}

// The byte at which a table begins.
pub fn offset_of(pairs: &TablePairs, t: usize) -> usize
    requires a_table { (1 ≤ t) × (t ≤ 10) }
    ensures defined { result ≡ offset_of pairs.now t }
{
    index(pairs[t - 1][PAIR_OFFSET])
}

// Where a book's tables begin: after its five pairs and three category numbers. A sheet's begin at 100.
pub const BOOK_HEADER: usize = 52;

// Where a fit's tables begin: after its five pairs, depth and recording.
pub const FIT_HEADER: usize = 48;

// Where the category numbers stand: after a sheet's ten pairs, or a book's five.
fn categories_at(pairs: &TablePairs) -> usize
    ensures defined { result ≡ categories_at pairs.now }
{
    let first = offset_of(pairs, TABLE_ATTRIBUTES);
    if first == BOOK_HEADER {
        return 40;
    }
    80
}

// Where depth and recording stand: after a sheet's category numbers, or a fit's five pairs. One function for both would take table, header and two places.
fn depth_at(pairs: &TablePairs) -> usize
    ensures defined { result ≡ depth_at pairs.now }
{
    let first = offset_of(pairs, TABLE_OBJECTS);
    if first == FIT_HEADER {
        return 40;
    }
    92
}

// The category number of modules.
pub fn category_module(book: &[u8], pairs: &TablePairs) -> i32
    requires a_header { categories_at pairs.now + 12 ≤ length book.now }
    ensures defined { result ≡ i32_at book.now (categories_at pairs.now) }
{
    let at = categories_at(pairs);
    i32_at(book, at)
}

// The category number of subsystems.
pub fn category_subsystem(book: &[u8], pairs: &TablePairs) -> i32
    requires a_header { categories_at pairs.now + 12 ≤ length book.now }
    ensures defined { result ≡ i32_at book.now (categories_at pairs.now + 4) }
{
    let at = categories_at(pairs);
    i32_at(book, at + 4)
}

// The category number of structure modules.
pub fn category_structure_module(book: &[u8], pairs: &TablePairs) -> i32
    requires a_header { categories_at pairs.now + 12 ≤ length book.now }
    ensures defined { result ≡ i32_at book.now (categories_at pairs.now + 8) }
{
    let at = categories_at(pairs);
    i32_at(book, at + 8)
}

// How deep calculations may start one inside another.
pub fn depth_of(fit: &[u8], pairs: &TablePairs) -> u32
    requires a_header { depth_at pairs.now + 8 ≤ length fit.now }
    ensures defined { result ≡ u32_at fit.now (depth_at pairs.now) }
{
    let at = depth_at(pairs);
    u32_at(fit, at)
}

// Whether source rows are recorded: 0 or 1.
pub fn recording_of(fit: &[u8], pairs: &TablePairs) -> u32
    requires a_header { depth_at pairs.now + 8 ≤ length fit.now }
    ensures defined { result ≡ u32_at fit.now (depth_at pairs.now + 4) }
{
    let at = depth_at(pairs);
    u32_at(fit, at + 4)
}
