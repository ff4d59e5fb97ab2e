// The exported writers: a sheet's bytes from lent tables, or the refusal that reading them would have got; and a book's and a fit's file.
#![tactic(auto)]

ghost use Rattle.std.specs.Prelude.{◌≡◌, [], length};
ghost use Rattle.clear.specs.Ends.{ClearedFrom};
ghost use Rattle.tables.specs.Tables.{together, written, written_book, written_fit};
ghost use Rattle.tables.specs.At.{book_at, fit_at, book_in, fit_in};
ghost use Rattle.write.specs.Given.{Gives, Puts, told, end_of};
ghost use Rattle.write.specs.declared.NotWritten.TheVariants.{Shape, Room};

use clear::zero_from;
use columns::{
    AskFields, AttributeFields, BookNumbers, BuffCollectionFields, EffectFields, FitNumbers,
    ModifierFields, ObjectFields, SheetNumbers, TypeEffectFields,
};
use lent::book::book_shape;
use lent::fit::fit_shape;
use lent::sheet_shape;
use put_tables::{put_book_file, put_fit_file, put_sheet};
use shape::BadTable;
use tables::{BookTables, FitTables};

// The numbers of the refusals, as C has them, and the place of a full sheet: list 6.
const SHAPE: u64 = 1;

const ROOM: u64 = 7;

const SHEET: u64 = 6;

// Number and place as document 01 has them; how many bytes were written.
#[repr(C)]
#[derive(Clone, Copy)]
pub struct Written {
    pub number: u64,
    pub place: u64,
    pub length: u64,
}

// Why nothing is written: the first bad table, or that there is no room.
#[derive(Clone, Copy)]
enum NotWritten {
    Shape(BadTable),
    Room,
}

impl From<BadTable> for NotWritten {
    ghost from_gives = { λ bad reason. reason ≡ Shape bad };

    fn from(bad: BadTable) -> NotWritten {
        NotWritten::Shape(bad)
    }
}

// A sheet of tables that 01 allows, where there is room. How long it is.
fn sheet_written(
    bytes: &mut [u8],
    header: &SheetNumbers,
    book: BookTables,
    fit: FitTables,
) -> Result<usize, NotWritten>
    ensures defined { let t = together header.now (book_in book.entry []) (fit_in fit.entry []) in
        Puts bytes.old bytes.new result (written t (length bytes.old)) }
{
    sheet_shape(header, book, fit)?;
    let room = 100 + book.length() + fit.length();
    if bytes.len() < room {
        return Err(NotWritten::Room);
    }
    Ok(put_sheet(bytes, header, book, fit))
}

// A book's file, where there is room. How long it is.
fn book_written(
    bytes: &mut [u8],
    header: &BookNumbers,
    book: BookTables,
) -> Result<usize, NotWritten>
    ensures defined { let t = book_in book.entry header.now in
        Puts bytes.old bytes.new result (written_book t (length bytes.old)) }
{
    book_shape(book)?;
    let room = 52 + book.length();
    if bytes.len() < room {
        return Err(NotWritten::Room);
    }
    Ok(put_book_file(bytes, header, book))
}

// A fit's file, where there is room. How long it is.
fn fit_written(bytes: &mut [u8], header: &FitNumbers, fit: FitTables) -> Result<usize, NotWritten>
    ensures defined { let t = fit_in fit.entry header.now in
        Puts bytes.old bytes.new result (written_fit t (length bytes.old)) }
{
    fit_shape(fit, header)?;
    let room = 48 + fit.length();
    if bytes.len() < room {
        return Err(NotWritten::Room);
    }
    Ok(put_fit_file(bytes, header, fit))
}

// The answer, and zeros behind what was written: after a refusal all bytes are zero.
fn answered(bytes: &mut [u8], put: Result<usize, NotWritten>) -> Written
    ensures answer { result ≡ told put }
    ensures cleared { ClearedFrom bytes 0 (end_of put) }
{
    let end = put.unwrap_or(0);
    zero_from(bytes, 0, end);
    match put {
        Ok(end) => Written {
            number: 0,
            place: 0,
            length: end as u64,
        },
        Err(NotWritten::Shape(bad)) => Written {
            number: SHAPE,
            place: bad.table as u64,
            length: 0,
        },
        Err(NotWritten::Room) => Written {
            number: ROOM,
            place: SHEET,
            length: 0,
        },
    }
}

// A sheet's bytes and the answer, whatever the tables and the bytes that are lent: nothing is required.
pub fn dogma_write_sheet(
    bytes: &mut [u8],
    header: &SheetNumbers,
    attributes: &[AttributeFields],
    defaults: &[f64],
    effects: &[EffectFields],
    modifiers: &[ModifierFields],
    type_effects: &[TypeEffectFields],
    buff_collections: &[BuffCollectionFields],
    objects: &[ObjectFields],
    base_attributes: &[u32],
    base_values: &[f64],
    ids: &[u32],
    buffs: &[u32],
    buff_values: &[f64],
    asks: &[AskFields],
) -> Written
    ensures the_sheet { let book = book_at attributes defaults effects modifiers type_effects buff_collections [] in
        let fit = fit_at objects base_attributes base_values ids buffs buff_values asks [] in
        Gives bytes result (written (together header.now book fit)) }
{
    let book = BookTables {
        attributes,
        defaults,
        effects,
        modifiers,
        type_effects,
        buff_collections,
    };
    let fit = FitTables {
        objects,
        base_attributes,
        base_values,
        ids,
        buffs,
        buff_values,
        asks,
    };
    let end = sheet_written(bytes, header, book, fit);
    answered(bytes, end)
}

// A book's file: tables 1 to 5 and the three category numbers.
pub fn dogma_write_book(
    bytes: &mut [u8],
    header: &BookNumbers,
    attributes: &[AttributeFields],
    defaults: &[f64],
    effects: &[EffectFields],
    modifiers: &[ModifierFields],
    type_effects: &[TypeEffectFields],
    buff_collections: &[BuffCollectionFields],
) -> Written
    ensures the_book { let t = book_at attributes defaults effects modifiers type_effects buff_collections header.now in
        Gives bytes result (written_book t) }
{
    let book = BookTables {
        attributes,
        defaults,
        effects,
        modifiers,
        type_effects,
        buff_collections,
    };
    let end = book_written(bytes, header, book);
    answered(bytes, end)
}

// A fit's file: tables 6 to 10, depth and recording. Its places are plus 20.
pub fn dogma_write_fit(
    bytes: &mut [u8],
    header: &FitNumbers,
    objects: &[ObjectFields],
    base_attributes: &[u32],
    base_values: &[f64],
    ids: &[u32],
    buffs: &[u32],
    buff_values: &[f64],
    asks: &[AskFields],
) -> Written
    ensures the_fit { let t = fit_at objects base_attributes base_values ids buffs buff_values asks header.now in
        Gives bytes result (written_fit t) }
{
    let fit = FitTables {
        objects,
        base_attributes,
        base_values,
        ids,
        buffs,
        buff_values,
        asks,
    };
    let end = fit_written(bytes, header, fit);
    answered(bytes, end)
}
