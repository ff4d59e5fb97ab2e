// 1 SHAPE: whether bytes are a sheet, and if not, which table is the first bad one, 0 for the header.
#![tactic(auto)]

ghost use Rattle.std.specs.Prelude.{◌≡◌, ◌+◌, ◌≤◌, length};
ghost use Rattle.laws.specs.Lists.{from};
ghost use Rattle.rules.specs.Bytes.{width_of, limit_of};
ghost use Rattle.rules.specs.Shape.{header_good, book_bad, fit_bad, bad_shape};
ghost use Rattle.rules.specs.Files as files;
ghost use Rattle.rules.specs.declared.Refusal.TheVariants.{Shape};
ghost use Rattle.info.specs.At.{book_at, fit_at};
ghost use Rattle.info.specs.Sound.{HeldBook, HeldFit};
ghost use Rattle.shape.specs.Shaped.{shaped_of};

use book_tables::{attributes_good, buff_collections_good, effects_good, type_effects_good};
use columns::{TABLE_ATTRIBUTES, TablePairs};
use fit_tables::{asks_good, bases_good, buffs_good, objects_good};
use info::header::{count_of, offset_of, pairs_of};
use info::little_endian::u32_at;
use rules::Refusal;

// The first bad table, 0 for the header; in a fit's own file 20 more.
#[derive(Clone, Copy, Debug, PartialEq, Eq)]
pub struct BadTable {
    pub table: u32,
}

impl From<BadTable> for Refusal {
    ghost from_gives = { λ bad refusal. refusal ≡ Shape bad.table };

    fn from(bad: BadTable) -> Refusal {
        Refusal::Shape(bad.table)
    }
}

// Bytes of a record of each table.
const WIDTHS: [usize; 10] = [24, 24, 28, 12, 16, 68, 12, 4, 12, 8];

// Most records of each table.
const LIMITS: [usize; 10] = [2048, 1024, 4096, 4096, 64, 1024, 16384, 4096, 64, 1024];

// Bytes of a record of a table.
pub fn width_of(t: usize) -> usize
    requires a_table { (1 ≤ t) × (t ≤ 10) }
    ensures defined { result ≡ width_of t }
{
    WIDTHS[t - 1]
}

// The most records of a table.
pub fn limit_of(t: usize) -> usize
    requires a_table { (1 ≤ t) × (t ≤ 10) }
    ensures defined { result ≡ limit_of t }
{
    LIMITS[t - 1]
}

// Whether tables follow without gaps from byte h on, so many from one on, each with at most its most records, up to the end of n bytes.
pub fn standing(pairs: &TablePairs, first: usize, tables: usize, h: usize, n: usize) -> bool
    requires some_of_ten { (1 ≤ first) × (first + tables ≤ 11) }
    requires a_header { h ≤ 100 }
    ensures defined { result ≡ files.standing pairs.now h (from first tables) n }
{
    let last = first + tables;
    let mut end = h;
    for t in first..last {
        let count = count_of(pairs, t);
        let offset = offset_of(pairs, t);
        let limit = limit_of(t);
        if limit < count {
            return false;
        }
        if offset != end {
            return false;
        }
        end = offset + width_of(t) * count;
    }
    end == n
}

// Whether the header is good: tables in order up to the end, depth and recording in their ranges.
pub fn header_good(b: &[u8], pairs: &TablePairs) -> bool
    requires a_header { 100 ≤ length b.now }
    ensures defined { result ≡ header_good b.now pairs.now }
{
    let tables = standing(pairs, TABLE_ATTRIBUTES, 10, 100, b.len());
    let depth = u32_at(b, 92);
    let recording = u32_at(b, 96);
    tables & (1 <= depth) & (depth <= 256) & (recording <= 1)
}

// The first bad table of the book.
#[tactic(auto, unfolding(rules::specs::Shape::book_bad))]
pub fn book_shape(book: &[u8], pairs: &TablePairs) -> Result<(), BadTable>
    requires held_book { HeldBook book.now pairs.now }
    ensures defined { result ≡ shaped_of (book_bad (book_at book pairs)) }
{
    if !attributes_good(book, pairs) {
        return Err(BadTable { table: 1 });
    }
    if !effects_good(book, pairs) {
        return Err(BadTable { table: 2 });
    }
    if !type_effects_good(book, pairs) {
        return Err(BadTable { table: 4 });
    }
    if !buff_collections_good(book, pairs) {
        return Err(BadTable { table: 5 });
    }
    Ok(())
}

// The first bad table of the fit.
#[tactic(auto, unfolding(rules::specs::Shape::fit_bad))]
pub fn fit_shape(fit: &[u8], pairs: &TablePairs) -> Result<(), BadTable>
    requires held_fit { HeldFit fit.now pairs.now }
    ensures defined { result ≡ shaped_of (fit_bad (fit_at fit pairs)) }
{
    if !objects_good(fit, pairs) {
        return Err(BadTable { table: 6 });
    }
    if !bases_good(fit, pairs) {
        return Err(BadTable { table: 7 });
    }
    if !buffs_good(fit, pairs) {
        return Err(BadTable { table: 9 });
    }
    if !asks_good(fit, pairs) {
        return Err(BadTable { table: 10 });
    }
    Ok(())
}

// The first bad table of a sheet, 0 for the header.
pub fn shape(b: &[u8]) -> Result<(), BadTable>
    ensures defined { result ≡ shaped_of (bad_shape b.now) }
{
    if b.len() < 100 {
        return Err(BadTable { table: 0 });
    }
    let pairs = pairs_of(b);
    if !header_good(b, &pairs) {
        return Err(BadTable { table: 0 });
    }
    book_shape(b, &pairs)?;
    fit_shape(b, &pairs)
}

pub mod book_tables;
pub mod fit_tables;
