// The exported functions of `write`: sheets, books and fits written, for callers in C. Each calls the library's function, and says what it says.
#![tactic(auto)]

ghost use Rattle.std.specs.Prelude.{[]};
ghost use Rattle.tables.specs.Tables.{together, written, written_book, written_fit};
ghost use Rattle.tables.specs.At.{book_at, fit_at};
ghost use Rattle.write.specs.Given.{Gives};

use columns::{
    AskFields, AttributeFields, BookNumbers, BuffCollectionFields, EffectFields, FitNumbers,
    ModifierFields, ObjectFields, SheetNumbers, TypeEffectFields,
};
use write::Written;

// A sheet's bytes and the answer, whatever the tables and the bytes that are lent: nothing is required.
#[unsafe(no_mangle)]
pub extern "C" fn dogma_write_sheet(
    bytes: &mut [u8],
    header: &SheetNumbers,
    attributes: &[AttributeFields],
    defaults: &[f64],
    effects: &[EffectFields],
    modifiers: &[ModifierFields],
    type_effects: &[TypeEffectFields],
    buff_collections: &[BuffCollectionFields],
    objects: &[ObjectFields],
    base_attributes: &[u32],
    base_values: &[f64],
    ids: &[u32],
    buffs: &[u32],
    buff_values: &[f64],
    asks: &[AskFields],
) -> Written
    ensures the_sheet { let book = book_at attributes defaults effects modifiers type_effects buff_collections [] in
        let fit = fit_at objects base_attributes base_values ids buffs buff_values asks [] in
        Gives bytes result (written (together header.now book fit)) }
{
    write::dogma_write_sheet(
        bytes,
        header,
        attributes,
        defaults,
        effects,
        modifiers,
        type_effects,
        buff_collections,
        objects,
        base_attributes,
        base_values,
        ids,
        buffs,
        buff_values,
        asks,
    )
}

// A book's file: tables 1 to 5 and the three category numbers.
#[unsafe(no_mangle)]
pub extern "C" fn dogma_write_book(
    bytes: &mut [u8],
    header: &BookNumbers,
    attributes: &[AttributeFields],
    defaults: &[f64],
    effects: &[EffectFields],
    modifiers: &[ModifierFields],
    type_effects: &[TypeEffectFields],
    buff_collections: &[BuffCollectionFields],
) -> Written
    ensures the_book { let t = book_at attributes defaults effects modifiers type_effects buff_collections header.now in
        Gives bytes result (written_book t) }
{
    write::dogma_write_book(
        bytes,
        header,
        attributes,
        defaults,
        effects,
        modifiers,
        type_effects,
        buff_collections,
    )
}

// A fit's file: tables 6 to 10, depth and recording. Its places are plus 20.
#[unsafe(no_mangle)]
pub extern "C" fn dogma_write_fit(
    bytes: &mut [u8],
    header: &FitNumbers,
    objects: &[ObjectFields],
    base_attributes: &[u32],
    base_values: &[f64],
    ids: &[u32],
    buffs: &[u32],
    buff_values: &[f64],
    asks: &[AskFields],
) -> Written
    ensures the_fit { let t = fit_at objects base_attributes base_values ids buffs buff_values asks header.now in
        Gives bytes result (written_fit t) }
{
    write::dogma_write_fit(
        bytes,
        header,
        objects,
        base_attributes,
        base_values,
        ids,
        buffs,
        buff_values,
        asks,
    )
}
