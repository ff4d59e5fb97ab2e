// 1 SHAPE over lent tables: the reader's verdict on their sheet, before a byte of it is written.
#![tactic(auto)]

ghost use Rattle.std.specs.Prelude.{◌≡◌, []};
ghost use Rattle.shape.specs.Shaped.{shaped_of};
ghost use Rattle.tables.specs.Tables.{together, tables_bad};
ghost use Rattle.tables.specs.At.{book_in, fit_in};

use book::{book_bad, book_fits};
use columns::{SHEET_DEPTH, SHEET_RECORDING, SheetNumbers};
use fit::{fit_bad, fit_fits};
use shape::BadTable;
use tables::{BookTables, FitTables};

// The first bad table of a sheet, 0 for its header.
pub fn sheet_shape(header: &SheetNumbers, book: BookTables, fit: FitTables) -> Result<(), BadTable>
    ensures defined { let book = book_in book.entry [] in
        let fit = fit_in fit.entry [] in
        result ≡ shaped_of (tables_bad (together header.now book fit)) }
{
    let depth = header[SHEET_DEPTH];
    let recording = header[SHEET_RECORDING];
    if !book_fits(book) {
        return Err(BadTable { table: 0 });
    }
    if !fit_fits(fit, depth, recording) {
        return Err(BadTable { table: 0 });
    }
    book_bad(book)?;
    fit_bad(fit)
}

pub mod book;
pub mod fit;
pub mod records;
