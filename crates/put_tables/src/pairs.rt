// Counts and offsets of five tables that stand from a place on, by value.
ghost use Rattle.std.specs.Prelude.{◌≡◌, [], ◌≤◌};
ghost use Rattle.tables.specs.Tables.{book_tabs, fit_tabs, pairs_from};
ghost use Rattle.tables.specs.At.{book_in, fit_in};
ghost use Rattle.tables.specs.Fits.{FewBook, FewFit};

use columns::FivePairs;
use tables::{BookTables, FitTables};

// The two stay apart: one function over both takes five widths and five counts, and writes the same ten places.

// The pairs of tables 1 to 5.
pub fn book_pairs(at: usize, book: BookTables) -> FivePairs
    requires few { FewBook (book_in book []) }
    requires near { at ≤ 100 }
    ensures defined { result ≡ pairs_from at (book_tabs (book_in book.entry [])) }
{
    let second = at + 24 * book.attributes.len();
    let third = second + 24 * book.effects.len();
    let fourth = third + 28 * book.modifiers.len();
    let fifth = fourth + 12 * book.type_effects.len();
    [
        book.attributes.len() as u32,
        at as u32,
        book.effects.len() as u32,
        second as u32,
        book.modifiers.len() as u32,
        third as u32,
        book.type_effects.len() as u32,
        fourth as u32,
        book.buff_collections.len() as u32,
        fifth as u32,
    ]
}

// The pairs of tables 6 to 10.
pub fn fit_pairs(at: usize, fit: FitTables) -> FivePairs
    requires few { FewFit (fit_in fit []) }
    requires near { at ≤ 1000000 }
    ensures defined { result ≡ pairs_from at (fit_tabs (fit_in fit.entry [])) }
{
    let seventh = at + 68 * fit.objects.len();
    let eighth = seventh + 12 * fit.base_attributes.len();
    let ninth = eighth + 4 * fit.ids.len();
    let tenth = ninth + 12 * fit.buffs.len();
    [
        fit.objects.len() as u32,
        at as u32,
        fit.base_attributes.len() as u32,
        seventh as u32,
        fit.ids.len() as u32,
        eighth as u32,
        fit.buffs.len() as u32,
        ninth as u32,
        fit.asks.len() as u32,
        tenth as u32,
    ]
}
