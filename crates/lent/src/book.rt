// 1 SHAPE over lent tables 1 to 5: the reader's tests of one record, in its order.
ghost use Rattle.std.specs.Prelude.{◌≡◌, true, [], ◌≤◌, length};
ghost use Rattle.rules.specs.Shape.{attributes_good, effects_good, type_effects_good, buff_collections_good, book_bad};
ghost use Rattle.shape.specs.Shaped.{shaped_of};
ghost use Rattle.tables.specs.Tables.{book_fits, book_lent, book_tables_bad};
ghost use Rattle.tables.specs.At.{book_in};
ghost use Rattle.lent.specs.Alone.{attributes_alone, effects_alone, type_effects_alone, buff_collections_alone};

use super::records::{attribute, buff_collection, effect, type_effect};
use columns::{
    AttributeFields, BuffCollectionFields, EffectFields, ModifierFields, TypeEffectFields,
};
use shape::BadTable;
use shape::book_tables::{attribute_good, buff_collection_good, effect_good, type_effect_good};
use tables::BookTables;

// The loops of these four tables stay apart: one function over them takes the record, its test and its key as closures, and has to say in
// its contract what each of the three gives, which is longer than the loops.

// Whether table 1 is good.
fn attributes_good(attributes: &[AttributeFields], defaults: &[f64]) -> bool
    requires beside { length attributes.now ≡ length defaults.now }
    ensures defined { result ≡ attributes_good (attributes_alone attributes.now defaults.now) }
{
    let mut last = 0;
    for i in 0..attributes.len() {
        let r = attribute(attributes, defaults, i);
        if !attribute_good(i, last, r) {
            return false;
        }
        last = r.id;
    }
    true
}

// Whether table 2 is good.
fn effects_good(effects: &[EffectFields], modifiers: &[ModifierFields]) -> bool
    requires few { length effects.now ≤ 1024 }
    ensures defined { result ≡ effects_good (effects_alone effects.now modifiers.now) }
{
    let count = modifiers.len();
    let mut last = 0;
    for i in 0..effects.len() {
        let r = effect(effects, i);
        if !effect_good(i, last, r, count) {
            return false;
        }
        last = r.id;
    }
    true
}

// Whether table 4 is good.
fn type_effects_good(type_effects: &[TypeEffectFields]) -> bool
    ensures defined { result ≡ type_effects_good (type_effects_alone type_effects.now) }
{
    let mut last = 0;
    for i in 0..type_effects.len() {
        let r = type_effect(type_effects, i);
        if !type_effect_good(i, last, r) {
            return false;
        }
        last = r.type_id;
    }
    true
}

// Whether table 5 is good.
fn buff_collections_good(
    buff_collections: &[BuffCollectionFields],
    modifiers: &[ModifierFields],
) -> bool
    requires few { length buff_collections.now ≤ 64 }
    ensures defined { result ≡ buff_collections_good (buff_collections_alone buff_collections.now modifiers.now) }
{
    let count = modifiers.len();
    let mut last = 0;
    for i in 0..buff_collections.len() {
        let r = buff_collection(buff_collections, i);
        if !buff_collection_good(i, last, r, count) {
            return false;
        }
        last = r.id;
    }
    true
}

// Whether columns are alike and counts are allowed.
pub fn book_fits(book: BookTables) -> bool
    ensures defined { result ≡ book_fits (book_in book.entry []) }
{
    let alike = book.attributes.len() == book.defaults.len();
    let counted = (book.attributes.len() <= 2048)
        & ((book.effects.len() <= 1024)
            & ((book.modifiers.len() <= 4096)
                & ((book.type_effects.len() <= 4096) & (book.buff_collections.len() <= 64))));
    alike & counted
}

// The first bad table of a book whose header fits.
pub fn book_bad(book: BookTables) -> Result<(), BadTable>
    requires fits { book_fits (book_in book []) ≡ true }
    ensures defined { result ≡ shaped_of (book_bad (book_lent (book_in book.entry []))) }
{
    if !attributes_good(book.attributes, book.defaults) {
        return Err(BadTable { table: 1 });
    }
    if !effects_good(book.effects, book.modifiers) {
        return Err(BadTable { table: 2 });
    }
    if !type_effects_good(book.type_effects) {
        return Err(BadTable { table: 4 });
    }
    if !buff_collections_good(book.buff_collections, book.modifiers) {
        return Err(BadTable { table: 5 });
    }
    Ok(())
}

// The first bad table of a book, 0 for its header.
pub fn book_shape(book: BookTables) -> Result<(), BadTable>
    ensures defined { result ≡ shaped_of (book_tables_bad (book_in book.entry [])) }
{
    if !book_fits(book) {
        return Err(BadTable { table: 0 });
    }
    book_bad(book)
}
