// 1 SHAPE, tables 1 to 5: whether each table of the book is good.
ghost use Rattle.std.specs.Prelude.{◌≡◌, ◌&&◌, ◌||◌, eqb, leb};
ghost use Rattle.std.specs.Int.Signed.{lt_z, le_z};
ghost use Rattle.laws.specs.Floats.{finite};
ghost use Rattle.rules.specs.Shape.{attributes_good, effects_good, type_effects_good, buff_collections_good};
ghost use Rattle.rules.specs.Shape as rule;
ghost use Rattle.info.specs.At.{book_at};
ghost use Rattle.info.specs.Sound.{HeldBook};

use columns::TablePairs;
use info::header::count_of;
use info::records::{attribute, buff_collection, effect, type_effect};
use numbers::is_finite;
use rules::{DbuffCollection, DogmaAttribute, DogmaEffect, TypeDogmaEffect};

// Whether first plus count is at most n.
pub fn inside(first: u32, count: u32, n: usize) -> bool
    ensures defined { result ≡ rule.inside first count n }
{
    (first as u64) + (count as u64) <= (n as u64)
}

// Whether record i of table 1 is good, after one of id last.
pub fn attribute_good(i: usize, last: i32, r: DogmaAttribute) -> bool
    ensures defined { result ≡ (eqb i 0 || lt_z last r.id) && (leb r.flags 3 && finite r.default_value) }
{
    let sized = is_finite(r.default_value);
    ((i == 0) | (last < r.id)) & ((r.flags <= 3) & sized)
}

// Whether table 1 is good: ids ascend strictly, flags are known, defaults finite.
pub fn attributes_good(book: &[u8], pairs: &TablePairs) -> bool
    requires held_book { HeldBook book.now pairs.now }
    ensures defined { result ≡ attributes_good (book_at book pairs) }
{
    let n = count_of(pairs, 1);
    let mut last = 0;
    for i in 0..n {
        let r = attribute(book, pairs, i);
        let good = attribute_good(i, last, r);
        last = r.id;
        if !good {
            return false;
        }
    }
    true
}

// Whether record i of table 2 is good, after one of id last; there are n modifiers.
pub fn effect_good(i: usize, last: i32, r: DogmaEffect, n: usize) -> bool
    ensures defined { result ≡ (eqb i 0 || lt_z last r.id) && rule.inside r.first_modifier r.modifiers n }
{
    let within = inside(r.first_modifier, r.modifiers, n);
    ((i == 0) | (last < r.id)) & within
}

// Whether table 2 is good: ids ascend strictly, and modifiers lie in table 3.
pub fn effects_good(book: &[u8], pairs: &TablePairs) -> bool
    requires held_book { HeldBook book.now pairs.now }
    ensures defined { result ≡ effects_good (book_at book pairs) }
{
    let n = count_of(pairs, 2);
    let modifiers = count_of(pairs, 3);
    let mut last = 0;
    for i in 0..n {
        let r = effect(book, pairs, i);
        let good = effect_good(i, last, r, modifiers);
        last = r.id;
        if !good {
            return false;
        }
    }
    true
}

// Whether record i of table 4 is good, after one of type last.
pub fn type_effect_good(i: usize, last: i32, r: TypeDogmaEffect) -> bool
    ensures defined { result ≡ (eqb i 0 || le_z last r.type_id) && leb r.is_default 1 }
{
    ((i == 0) | (last <= r.type_id)) & (r.is_default <= 1)
}

// Whether table 4 is good: types do not descend, and default is 0 or 1.
pub fn type_effects_good(book: &[u8], pairs: &TablePairs) -> bool
    requires held_book { HeldBook book.now pairs.now }
    ensures defined { result ≡ type_effects_good (book_at book pairs) }
{
    let n = count_of(pairs, 4);
    let mut last = 0;
    for i in 0..n {
        let r = type_effect(book, pairs, i);
        let good = type_effect_good(i, last, r);
        last = r.type_id;
        if !good {
            return false;
        }
    }
    true
}

// Whether record i of table 5 is good, after one of id last; there are n modifiers.
pub fn buff_collection_good(i: usize, last: i32, r: DbuffCollection, n: usize) -> bool
    ensures defined { result ≡ (eqb i 0 || lt_z last r.id) && rule.inside r.first_modifier r.modifiers n }
{
    let held = inside(r.first_modifier, r.modifiers, n);
    ((i == 0) | (last < r.id)) & held
}

// Whether table 5 is good: ids ascend strictly, and modifiers lie in table 3.
pub fn buff_collections_good(book: &[u8], pairs: &TablePairs) -> bool
    requires held_book { HeldBook book.now pairs.now }
    ensures defined { result ≡ buff_collections_good (book_at book pairs) }
{
    let n = count_of(pairs, 5);
    let modifiers = count_of(pairs, 3);
    let mut last = 0;
    for i in 0..n {
        let r = buff_collection(book, pairs, i);
        let good = buff_collection_good(i, last, r, modifiers);
        last = r.id;
        if !good {
            return false;
        }
    }
    true
}
