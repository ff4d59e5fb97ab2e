// The tables of a book one after another, and of a fit.
ghost use Rattle.std.specs.Prelude.{◌≡◌, [], ◌+◌, ◌≤◌, length};
ghost use Rattle.listing.specs.Put.{Added};
ghost use Rattle.tables.specs.Tables.{book_tabs, fit_tabs, body_of, book_length, fit_length};
ghost use Rattle.tables.specs.At.{book_in, fit_in};
ghost use Rattle.put_tables.specs.Ready.{BookReady, FitReady};

use super::rows::{put_attributes, put_rows, put_values};
use super::words::put_words;
use tables::{BookTables, FitTables};

// Tables 1 to 5, from a place on.
pub fn put_book(bytes: &mut [u8], at: usize, book: BookTables) -> usize
    requires ready { BookReady (book_in book []) }
    requires room { at + book_length (book_in book [])
        ≤ length bytes.old }
    ensures written { let t = book_in book.entry [] in
        Added bytes at result (body_of (book_tabs t)) }
    ensures end { let t = book_in book.entry [] in
        result ≡ at + book_length t }
{
    let second = put_attributes(bytes, at, book.attributes, book.defaults);
    let third = put_rows(bytes, second, book.effects);
    let fourth = put_rows(bytes, third, book.modifiers);
    let fifth = put_rows(bytes, fourth, book.type_effects);
    put_rows(bytes, fifth, book.buff_collections)
}

// Tables 6 to 10, from a place on.
pub fn put_fit(bytes: &mut [u8], at: usize, fit: FitTables) -> usize
    requires ready { FitReady (fit_in fit []) }
    requires room { at + fit_length (fit_in fit [])
        ≤ length bytes.old }
    ensures written { let t = fit_in fit.entry [] in
        Added bytes at result (body_of (fit_tabs t)) }
    ensures end { let t = fit_in fit.entry [] in
        result ≡ at + fit_length t }
{
    let seventh = put_rows(bytes, at, fit.objects);
    let eighth = put_values(bytes, seventh, fit.base_attributes, fit.base_values);
    let ninth = put_words(bytes, eighth, fit.ids);
    let tenth = put_values(bytes, ninth, fit.buffs, fit.buff_values);
    put_rows(bytes, tenth, fit.asks)
}
