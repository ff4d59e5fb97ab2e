// Look-ups (info.rs) by binary search: ids ascend, types do not descend.
ghost use Rattle.std.specs.Prelude.{◌≡◌, ◌+◌, ◌*◌, ◌≤◌, ◌<◌, length};
ghost use Rattle.laws.specs.Options.{option_of};
ghost use Rattle.laws.specs.Lists.{eq_z, first, from};
ghost use Rattle.rules.specs.Sheet.{fit_of};
ghost use Rattle.rules.specs.Info.{get_dogma_attribute, get_dogma_effect, get_dogma_effects, get_dbuff_collection, get_base};
ghost use Rattle.info.specs.At.{book_at, fit_at};
ghost use Rattle.info.specs.Sound.{HeldFit, SoundBook, Based};
ghost use Rattle.info.specs.LookUps.{key_at, Keyed, Bounds, Lower, RunTo, Stretch};

use super::header::{count_of, offset_of};
use super::little_endian::{i32_at, index};
use super::places::{attribute_slot, effect_slot, place_of};
use super::records::{attribute, base_attribute, buff_collection, effect};
use columns::{AttributePlaces, EffectPlaces, PLACE_EFFECT, PLACE_TYPE, TablePairs};
use laws::{Window, step};
use rules::{BaseAttribute, DbuffCollection, DogmaAttribute, DogmaEffect, Item};

// Records that stand together.
#[derive(Clone, Copy)]
pub struct TypeEffects {
    pub first: usize,
    pub count: usize,
}

fn key_at(b: &[u8], at: usize, w: usize, k: usize) -> i32
    requires inside { at + w * k + 4 ≤ length b.now }
    ensures defined { result ≡ key_at b.now at w k }
{
    i32_at(b, at + w * k)
}

// Where the first of n places, each of w bytes, whose key is not less than the one sought lies: of eight or more a quarter and what is over is left.
fn narrowed(b: &[u8], at: usize, w: usize, n: usize, id: i32) -> Window
    requires keyed { Keyed b.now at w n }
    ensures narrowed { Bounds b.now at w n id result.low (result.low + result.left) }
{
    let mut low = 0;
    let mut left = n;
    // a while: by quarters, as in `search`, which was measured faster than by halves (docs/DECISIONS.md, 7)
    while 7 < left {
        let q = left / 4;
        let first = key_at(b, at, w, low + q - 1);
        let middle = key_at(b, at, w, low + 2 * q - 1);
        let last = key_at(b, at, w, low + 3 * q - 1);
        low = low + step(q, first < id) + step(q, middle < id) + step(q, last < id);
        left -= 3 * q;
    }
    Window {
        low: low,
        left: left,
    }
}

// The first of n places whose key is not less than the one sought: in its window the lesser are counted.
fn lower(b: &[u8], at: usize, w: usize, n: usize, id: i32) -> usize
    requires keyed { Keyed b.now at w n }
    ensures defined { Lower b.now at w n id result }
{
    let window = narrowed(b, at, w, n, id);
    let end = window.low + window.left;
    let mut found = window.low;
    for k in window.low..end {
        let key = key_at(b, at, w, k);
        found = found + step(1, key < id);
    }
    found
}

// The same where a place is told, which may be wrong: its key and the one before it say whether it is the first.
fn lower_at(b: &[u8], at: usize, w: usize, n: usize, id: i32, told: usize) -> usize
    requires keyed { Keyed b.now at w n }
    ensures defined { Lower b.now at w n id result }
{
    if told < n {
        let key = key_at(b, at, w, told);
        let less = key < id;
        if !less {
            if told == 0 {
                return told;
            }
            let before = key_at(b, at, w, told - 1);
            if before < id {
                return told;
            }
        }
    }
    lower(b, at, w, n, id)
}

// The first of n records whose key is the one sought, where a place is told.
fn find(b: &[u8], at: usize, w: usize, n: usize, id: i32, told: usize) -> Option<usize>
    requires keyed { Keyed b.now at w n }
    ensures defined { option_of result ≡ first (λ k. eq_z (key_at b.now at w k) id) (from 0 n) }
{
    let low = lower_at(b, at, w, n, id, told);
    if low < n {
        let key = key_at(b, at, w, low);
        if key == id {
            return Some(low);
        }
        return None;
    }
    None
}

// Where the records whose key is the one sought end, from the first that is not less on.
fn run_end(b: &[u8], at: usize, w: usize, n: usize, id: i32, low: usize) -> usize
    requires keyed { Keyed b.now at w n }
    requires from_the_first { Lower b.now at w n id low }
    ensures defined { RunTo b.now at w n id low result }
{
    for end in low..n {
        let key = key_at(b, at, w, end);
        if key != id {
            return end;
        }
    }
    n
}

// A missing attribute record: not stackable, high not good, default 0.0.
fn attribute_by(book: &[u8], pairs: &TablePairs, id: i32, told: usize) -> DogmaAttribute
    requires sound_book { SoundBook book.now pairs.now }
    ensures defined { result ≡ get_dogma_attribute (book_at book pairs) id }
{
    let found = find(book, offset_of(pairs, 1), 24, count_of(pairs, 1), id, told);
    let Some(i) = found else {
        return DogmaAttribute {
            id: id,
            flags: 0,
            default_value: 0.0,
            min_attribute_id: 0,
            max_attribute_id: 0,
        };
    };
    attribute(book, pairs, i)
}

// The attribute of an id.
pub fn get_dogma_attribute(book: &[u8], pairs: &TablePairs, id: i32) -> DogmaAttribute
    requires sound_book { SoundBook book.now pairs.now }
    ensures defined { result ≡ get_dogma_attribute (book_at book pairs) id }
{
    attribute_by(book, pairs, id, 0)
}

// The same where its place is told.
pub fn get_told_attribute(
    book: &[u8],
    pairs: &TablePairs,
    places: &AttributePlaces,
    id: i32,
) -> DogmaAttribute
    requires sound_book { SoundBook book.now pairs.now }
    ensures defined { result ≡ get_dogma_attribute (book_at book pairs) id }
{
    let told = places[attribute_slot(id)];
    attribute_by(book, pairs, id, place_of(told))
}

// The effect of an id; one may be missing.
pub fn get_dogma_effect(
    book: &[u8],
    pairs: &TablePairs,
    places: &EffectPlaces,
    id: i32,
) -> Option<DogmaEffect>
    requires sound_book { SoundBook book.now pairs.now }
    ensures defined { option_of result ≡ get_dogma_effect (book_at book pairs) id }
{
    let told = places[effect_slot(id)][PLACE_EFFECT];
    let i = find(
        book,
        offset_of(pairs, 2),
        24,
        count_of(pairs, 2),
        id,
        place_of(told),
    )?;
    Some(effect(book, pairs, i))
}

// The buff collection of an id; one may be missing.
pub fn get_dbuff_collection(book: &[u8], pairs: &TablePairs, id: i32) -> Option<DbuffCollection>
    requires sound_book { SoundBook book.now pairs.now }
    ensures defined { option_of result ≡ get_dbuff_collection (book_at book pairs) id }
{
    let i = find(book, offset_of(pairs, 5), 16, count_of(pairs, 5), id, 0)?;
    Some(buff_collection(book, pairs, i))
}

// The effects of a type stand together.
pub fn get_dogma_effects(
    book: &[u8],
    pairs: &TablePairs,
    places: &EffectPlaces,
    id: i32,
) -> TypeEffects
    requires sound_book { SoundBook book.now pairs.now }
    ensures together { let k = book_at book pairs in
        Stretch (get_dogma_effects k id) k.type_effects result.first result.count }
{
    let at = offset_of(pairs, 4);
    let n = count_of(pairs, 4);
    let told = places[effect_slot(id)][PLACE_TYPE];
    let low = lower_at(book, at, 12, n, id, place_of(told));
    let end = run_end(book, at, 12, n, id, low);
    TypeEffects {
        first: low,
        count: end - low,
    }
}

// A base attribute of an object.
pub fn get_base(fit: &[u8], pairs: &TablePairs, o: Item, id: i32) -> Option<BaseAttribute>
    requires held_fit { HeldFit fit.now pairs.now }
    requires its_bases { Based (fit_of fit.now pairs.now) o }
    ensures defined { option_of result ≡ get_base (fit_at fit pairs) o id }
{
    let first = index(o.first_attribute);
    let n = index(o.attributes);
    let at = offset_of(pairs, 7) + 12 * first;
    let i = find(fit, at, 12, n, id, 0)?;
    Some(base_attribute(fit, pairs, first + i))
}
