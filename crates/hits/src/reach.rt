// What of the objects decides who is touched: two tables, a row for each object, read once.
ghost use Rattle.std.specs.Prelude.{◌≡◌, ◌≤◌, ◌<◌, length, IfSome};
ghost use Rattle.rules.specs.Bytes.{count_of};
ghost use Rattle.rules.specs.Sheet.{Book, Fit};
ghost use Rattle.rules.specs.Dispatch.{carrier};
ghost use Rattle.info.specs.At.{book_at, fit_at, object_at};
ghost use Rattle.info.specs.Sound.{HeldBook, SoundFit};
ghost use Rattle.item.specs.Categories.{CategoriesOf};
ghost use Rattle.hits.specs.At.{ReachAt, SkillsAt};
ghost use Rattle.hits.specs.Reach.{slot_of, required_bits, reach_of};

use super::{ReachRow, SKILL_WIDTH, SkillRow};
use columns::{TABLE_OBJECTS, TablePairs};
use info::header::count_of;
use info::little_endian::index;
use info::records::{base_attribute, object};
use item::categories::categories_of;
use item::locations::{Categories, is_in_ship, is_on_char, is_owner_modifiable};
use numbers::integers::{bits, cut, flag};
use rules::{ATTRIBUTE_SKILLS, CHAR, CHARGE, ITEM, Item, SHIP, SKILL};

// The item that an item or a charge goes by: a charge's stands before it.
fn carrier_of(fit: &[u8], pairs: &TablePairs, i: usize) -> Item
    requires sound_fit { SoundFit fit.now pairs.now }
    requires an_object { i < count_of pairs.now 6 }
    ensures defined { result ≡ carrier (fit_at fit pairs) (object_at fit pairs i) }
{
    let o = object(fit, pairs, i);
    if o.kind == CHARGE {
        return object(fit, pairs, i - 1);
    }
    o
}

// The columns of an object, which goes by c.
fn columns(categories: Categories, o: Item, c: Item) -> ReachRow
    ensures defined { (k : Book) (f : Fit) → CategoriesOf k categories → c ≡ carrier f o → result ≡ reach_of k f o }
{
    let fitted = (o.kind == ITEM) | (o.kind == CHARGE);
    let in_ship = fitted & is_in_ship(categories, c);
    let on_char = fitted & is_on_char(c);
    let char_item = (o.kind == ITEM) & is_on_char(o);
    let owned = (o.kind == CHARGE) | (o.kind == ITEM) & is_owner_modifiable(o);
    [
        flag((o.kind == SHIP) | in_ship),
        flag((o.kind == CHAR) | (o.kind == SKILL)),
        flag(char_item),
        flag(in_ship),
        flag(on_char),
        flag(owned),
        1,
        bits(o.group_id),
    ]
}

// The columns of object i.
pub fn reach_of(book: &[u8], fit: &[u8], pairs: &TablePairs, i: usize) -> ReachRow
    requires held_book { HeldBook book.now pairs.now }
    requires sound_fit { SoundFit fit.now pairs.now }
    requires an_object { i < count_of pairs.now 6 }
    ensures defined { result ≡ reach_of (book_at book pairs) (fit_at fit pairs) (object_at fit pairs i) }
{
    let categories = categories_of(book, pairs);
    let o = object(fit, pairs, i);
    let c = carrier_of(fit, pairs, i);
    columns(categories, o, c)
}

// No skill: above every 32 bits.
pub const NO_SKILL: u64 = 4294967296;

// The place in a row of the skill that an attribute names.
fn slot_of(id: i32) -> Option<usize>
    ensures defined { result ≡ slot_of id }
    ensures inside { IfSome result (λ s. s < 6) }
{
    ATTRIBUTE_SKILLS.iter().position(|skill| *skill == id)
}

// The skills that object i requires, fixed from base values.
pub fn required_skills(fit: &[u8], pairs: &TablePairs, i: usize) -> SkillRow
    requires sound_fit { SoundFit fit.now pairs.now }
    requires an_object { i < count_of pairs.now 6 }
    ensures defined { result ≡ required_bits (fit_at fit pairs) (object_at fit pairs i) }
{
    let o = object(fit, pairs, i);
    let first = index(o.first_attribute);
    let n = index(o.attributes);
    let mut row = [NO_SKILL; SKILL_WIDTH];
    for k in 0..n {
        let b = base_attribute(fit, pairs, first + k);
        if let Some(slot) = slot_of(b.attribute_id) {
            let skill = bits(cut(b.value));
            row[slot] = skill as u64;
        }
    }
    row
}

// The required skills of all objects, into a table that is lent.
pub fn skill_table(rows: &mut [SkillRow], fit: &[u8], pairs: &TablePairs)
    requires sound_fit { SoundFit fit.now pairs.now }
    requires roomy { count_of pairs.now 6 ≤ length rows.old }
    ensures defined { SkillsAt fit pairs rows.new }
{
    let objects = count_of(pairs, TABLE_OBJECTS);
    for i in 0..objects {
        let row = required_skills(fit, pairs, i);
        rows[i] = row;
    }
}

// The columns of all objects, into a table that is lent.
pub fn reach_table(rows: &mut [ReachRow], book: &[u8], fit: &[u8], pairs: &TablePairs)
    requires held_book { HeldBook book.now pairs.now }
    requires sound_fit { SoundFit fit.now pairs.now }
    requires roomy { count_of pairs.now 6 ≤ length rows.old }
    ensures defined { ReachAt (book_at book pairs) fit pairs rows.new }
{
    let objects = count_of(pairs, TABLE_OBJECTS);
    for i in 0..objects {
        let row = reach_of(book, fit, pairs, i);
        rows[i] = row;
    }
}
