// Tables as bytes: a sheet, a book's file, a fit's file, each at the front of lent bytes with room for it; what is given is its length.
#![tactic(auto)]

ghost use Rattle.std.specs.Prelude.{◌≡◌, [], ◌≤◌, length};
ghost use Rattle.listing.specs.Put.{Added};
ghost use Rattle.tables.specs.Tables.{together, sheet_of, book_file_of, fit_file_of};
ghost use Rattle.tables.specs.At.{book_in, fit_in};
ghost use Rattle.put_tables.specs.Ready.{BookReady, FitReady};

use bodies::{put_book, put_fit};
use columns::{BookNumbers, FitNumbers, SheetNumbers};
use pairs::{book_pairs, fit_pairs};
use tables::{BookTables, FitTables};
use words::put_words;

// A whole sheet: its header, then the ten tables in their order.
pub fn put_sheet(bytes: &mut [u8], header: &SheetNumbers, book: BookTables, fit: FitTables) -> usize
    requires book_ready { BookReady (book_in book []) }
    requires fit_ready { FitReady (fit_in fit []) }
    requires room { let book = book_in book [] in
        let fit = fit_in fit [] in
        length (sheet_of (together header.now book fit)) ≤ length bytes.old }
    ensures written { let book = book_in book.entry [] in
        let fit = fit_in fit.entry [] in
        Added bytes 0 result (sheet_of (together header.now book fit)) }
{
    let book_at = book_pairs(100, book);
    let fit_at = fit_pairs(100 + book.length(), fit);
    let behind_book = put_words(bytes, 0, &book_at);
    let behind_fit = put_words(bytes, behind_book, &fit_at);
    let body = put_words(bytes, behind_fit, header);
    let middle = put_book(bytes, body, book);
    put_fit(bytes, middle, fit)
}

// A book's file: its header, then tables 1 to 5.
pub fn put_book_file(bytes: &mut [u8], header: &BookNumbers, book: BookTables) -> usize
    requires ready { BookReady (book_in book []) }
    requires room { length (book_file_of (book_in book header.now))
        ≤ length bytes.old }
    ensures written { let t = book_in book.entry header.now in
        Added bytes 0 result (book_file_of t) }
{
    let pairs = book_pairs(52, book);
    let behind = put_words(bytes, 0, &pairs);
    let body = put_words(bytes, behind, header);
    put_book(bytes, body, book)
}

// A fit's file: its header, then tables 6 to 10. Book and fit have no table in common, so the two stay two.
pub fn put_fit_file(bytes: &mut [u8], header: &FitNumbers, fit: FitTables) -> usize
    requires ready { FitReady (fit_in fit []) }
    requires room { length (fit_file_of (fit_in fit header.now))
        ≤ length bytes.old }
    ensures written { let t = fit_in fit.entry header.now in
        Added bytes 0 result (fit_file_of t) }
{
    let pairs = fit_pairs(48, fit);
    let behind = put_words(bytes, 0, &pairs);
    let body = put_words(bytes, behind, header);
    put_fit(bytes, body, fit)
}

pub mod bodies;
pub mod pairs;
pub mod rows;
pub mod words;
