// A book and a fit as two files: their ten pairs, and 1 SHAPE of the book, then of the fit.
#![tactic(auto)]

ghost use Rattle.std.specs.Prelude.{◌≡◌, ◌++◌};
ghost use Rattle.rules.specs.Files as rule;
ghost use Rattle.shape.specs.Shaped.{shaped_of};
ghost use Rattle.files.specs.Read.{pairs_read, bad_book_by};

use columns::{FilePairs, TABLE_ATTRIBUTES, TABLE_OBJECTS, TablePairs};
use info::header::pair_at;
use info::little_endian::u32_at;
use shape::{BadTable, book_shape, fit_shape, standing};

// The five pairs at the front of a file; zeros where it's too short to have them.
fn file_pairs(b: &[u8]) -> FilePairs
    ensures defined { result ≡ pairs_read b.now }
{
    if b.len() < 40 {
        return [[0, 0], [0, 0], [0, 0], [0, 0], [0, 0]];
    }
    [
        pair_at(b, 0),
        pair_at(b, 8),
        pair_at(b, 16),
        pair_at(b, 24),
        pair_at(b, 32),
    ]
}

// The ten pairs of a book and a fit, by value.
pub fn pairs_in(book: &[u8], fit: &[u8]) -> TablePairs
    ensures defined { result ≡ pairs_read book.now ++ pairs_read fit.now }
{
    let k = file_pairs(book);
    let f = file_pairs(fit);
    [k[0], k[1], k[2], k[3], k[4], f[0], f[1], f[2], f[3], f[4]]
}

// Whether the book's header is good: its tables in order up to its end.
#[tactic(auto, unfolding(rules::specs::Files::book_header_good))]
fn book_header_good(book: &[u8], pairs: &TablePairs) -> bool
    ensures defined { result ≡ rule.book_header_good book.now pairs.now }
{
    52 <= book.len() && standing(pairs, TABLE_ATTRIBUTES, 5, 52, book.len())
}

// Whether the fit's header is good: its tables in order up to its end, depth and recording in their ranges.
#[tactic(auto, unfolding(rules::specs::Files::fit_header_good))]
fn fit_header_good(fit: &[u8], pairs: &TablePairs) -> bool
    ensures defined { result ≡ rule.fit_header_good fit.now pairs.now }
{
    if fit.len() < 48 {
        return false;
    }
    let tables = standing(pairs, TABLE_OBJECTS, 5, 48, fit.len());
    let depth = u32_at(fit, 40);
    let recording = u32_at(fit, 44);
    tables & (1 <= depth) & (depth <= 256) & (recording <= 1)
}

// The first bad table of a book, 0 for its header.
fn book_verdict(book: &[u8], pairs: &TablePairs) -> Result<(), BadTable>
    ensures defined { result ≡ shaped_of (bad_book_by book.now pairs.now) }
{
    if !book_header_good(book, pairs) {
        return Err(BadTable { table: 0 });
    }
    book_shape(book, pairs)
}

// The first bad table of a fit plus 20, 20 for its header.
fn fit_verdict(fit: &[u8], pairs: &TablePairs) -> Result<(), BadTable>
    ensures defined { result ≡ shaped_of (rule.plus20 (rule.bad_fit fit.now pairs.now)) }
{
    if !fit_header_good(fit, pairs) {
        return Err(BadTable { table: 20 });
    }
    fit_shape(fit, pairs).map_err(|bad| BadTable {
        table: bad.table + 20,
    })
}

// SHAPE of two files: the book's, then the fit's, whose places are plus 20.
pub fn files_shape(book: &[u8], fit: &[u8], pairs: &TablePairs) -> Result<(), BadTable>
    requires read { pairs.now ≡ pairs_read book.now ++ pairs_read fit.now }
    ensures defined { result ≡ shaped_of (rule.bad_files book.now fit.now) }
{
    book_verdict(book, pairs)?;
    fit_verdict(fit, pairs)
}
