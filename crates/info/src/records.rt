// Records by value. `book` holds tables 1 to 5, `fit` tables 6 to 10.
ghost use Rattle.std.specs.Prelude.{◌≡◌, ◌+◌, ◌*◌, ◌≤◌, ◌<◌, length, take, drop};
ghost use Rattle.rules.specs.Bytes.{count_of};
ghost use Rattle.info.specs.At.{book_at, fit_at};
ghost use Rattle.info.specs.Sound.{HeldBook, HeldFit, Nth};

use super::header::offset_of;
use super::little_endian::{f64_at, i32_at, u32_at};
use columns::TablePairs;
use rules::{
    Ask, BaseAttribute, DbuffCollection, DogmaAttribute, DogmaEffect, DogmaModifier, Item,
    ProjectedBuff, TypeDogmaEffect,
};

// The bytes of record i of a table that begins at `at`, each of w bytes.
fn record_of(b: &[u8], at: usize, w: usize, i: usize) -> &[u8]
    requires inside { at + w * i + w ≤ length b.now }
    ensures record_and_width { (result.now ≡ take w (drop (at + w * i) b.now)) × (length result.now ≡ w) }
{
    let start = at + w * i;
    let end = start + w;
    &b[start..end]
}

// Record i of table 1.
pub fn attribute(book: &[u8], pairs: &TablePairs, i: usize) -> DogmaAttribute
    requires held_book { HeldBook book.now pairs.now }
    requires inside { i < count_of pairs.now 1 }
    ensures record_i { Nth (book_at book pairs).attributes i result }
{
    let r = record_of(book, offset_of(pairs, 1), 24, i);
    DogmaAttribute {
        id: i32_at(r, 0),
        flags: u32_at(r, 4),
        default_value: f64_at(r, 8),
        min_attribute_id: i32_at(r, 16),
        max_attribute_id: i32_at(r, 20),
    }
}

// Record i of table 2, with its number.
pub fn effect(book: &[u8], pairs: &TablePairs, i: usize) -> DogmaEffect
    requires held_book { HeldBook book.now pairs.now }
    requires inside { i < count_of pairs.now 2 }
    ensures record_i { Nth (book_at book pairs).effects i result }
{
    let r = record_of(book, offset_of(pairs, 2), 24, i);
    DogmaEffect {
        number: i as u32,
        id: i32_at(r, 0),
        category: u32_at(r, 4),
        resistance_attribute_id: i32_at(r, 8),
        usage_chance_attribute_id: i32_at(r, 12),
        first_modifier: u32_at(r, 16),
        modifiers: u32_at(r, 20),
    }
}

// Record i of table 3, with its number.
pub fn modifier(book: &[u8], pairs: &TablePairs, i: usize) -> DogmaModifier
    requires held_book { HeldBook book.now pairs.now }
    requires inside { i < count_of pairs.now 3 }
    ensures record_i { Nth (book_at book pairs).modifiers i result }
{
    let r = record_of(book, offset_of(pairs, 3), 28, i);
    DogmaModifier {
        number: i as u32,
        func: u32_at(r, 0),
        domain: u32_at(r, 4),
        operation: u32_at(r, 8),
        modifying_attribute_id: i32_at(r, 12),
        modified_attribute_id: i32_at(r, 16),
        skill_type_id: i32_at(r, 20),
        group_id: i32_at(r, 24),
    }
}

// Record i of table 4.
pub fn type_effect(book: &[u8], pairs: &TablePairs, i: usize) -> TypeDogmaEffect
    requires held_book { HeldBook book.now pairs.now }
    requires inside { i < count_of pairs.now 4 }
    ensures record_i { Nth (book_at book pairs).type_effects i result }
{
    let r = record_of(book, offset_of(pairs, 4), 12, i);
    TypeDogmaEffect {
        type_id: i32_at(r, 0),
        effect_id: i32_at(r, 4),
        is_default: u32_at(r, 8),
    }
}

// Record i of table 5, with its number.
pub fn buff_collection(book: &[u8], pairs: &TablePairs, i: usize) -> DbuffCollection
    requires held_book { HeldBook book.now pairs.now }
    requires inside { i < count_of pairs.now 5 }
    ensures record_i { Nth (book_at book pairs).buff_collections i result }
{
    let r = record_of(book, offset_of(pairs, 5), 16, i);
    DbuffCollection {
        number: i as u32,
        id: i32_at(r, 0),
        operation: u32_at(r, 4),
        first_modifier: u32_at(r, 8),
        modifiers: u32_at(r, 12),
    }
}

// Record i of table 6, with its number.
pub fn object(fit: &[u8], pairs: &TablePairs, i: usize) -> Item
    requires held_fit { HeldFit fit.now pairs.now }
    requires inside { i < count_of pairs.now 6 }
    ensures record_i { Nth (fit_at fit pairs).objects i result }
{
    let r = record_of(fit, offset_of(pairs, 6), 68, i);
    Item {
        number: i as u32,
        kind: u32_at(r, 0),
        type_id: i32_at(r, 4),
        group_id: i32_at(r, 8),
        category_id: i32_at(r, 12),
        slot: u32_at(r, 16),
        quantity: u32_at(r, 20),
        state: u32_at(r, 24),
        max_state: u32_at(r, 28),
        flags: u32_at(r, 32),
        mutation_base: i32_at(r, 36),
        projected_effect: i32_at(r, 40),
        first_attribute: u32_at(r, 44),
        attributes: u32_at(r, 48),
        first_ability: u32_at(r, 52),
        abilities: u32_at(r, 56),
        first_side_effect: u32_at(r, 60),
        side_effects: u32_at(r, 64),
    }
}

// Record i of table 7.
pub fn base_attribute(fit: &[u8], pairs: &TablePairs, i: usize) -> BaseAttribute
    requires held_fit { HeldFit fit.now pairs.now }
    requires inside { i < count_of pairs.now 7 }
    ensures record_i { Nth (fit_at fit pairs).bases i result }
{
    let r = record_of(fit, offset_of(pairs, 7), 12, i);
    BaseAttribute {
        attribute_id: i32_at(r, 0),
        value: f64_at(r, 4),
    }
}

// Record i of table 8: an id of an ability or a side effect.
pub fn id_at(fit: &[u8], pairs: &TablePairs, i: usize) -> i32
    requires held_fit { HeldFit fit.now pairs.now }
    requires inside { i < count_of pairs.now 8 }
    ensures record_i { Nth (fit_at fit pairs).ids i result }
{
    let r = record_of(fit, offset_of(pairs, 8), 4, i);
    i32_at(r, 0)
}

// Record i of table 9.
pub fn projected_buff(fit: &[u8], pairs: &TablePairs, i: usize) -> ProjectedBuff
    requires held_fit { HeldFit fit.now pairs.now }
    requires inside { i < count_of pairs.now 9 }
    ensures record_i { Nth (fit_at fit pairs).buffs i result }
{
    let r = record_of(fit, offset_of(pairs, 9), 12, i);
    ProjectedBuff {
        id: i32_at(r, 0),
        value: f64_at(r, 4),
    }
}

// Record i of table 10.
pub fn ask(fit: &[u8], pairs: &TablePairs, i: usize) -> Ask
    requires held_fit { HeldFit fit.now pairs.now }
    requires inside { i < count_of pairs.now 10 }
    ensures record_i { Nth (fit_at fit pairs).asks i result }
{
    let r = record_of(fit, offset_of(pairs, 10), 8, i);
    Ask {
        object: u32_at(r, 0),
        attribute_id: i32_at(r, 4),
    }
}
