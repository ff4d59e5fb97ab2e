// Places of the book's records by their ids, told to the look-ups: made once, and of no promise.
ghost use Rattle.std.specs.Prelude.{◌<◌};
ghost use Rattle.info.specs.Sound.{HeldBook};

use super::header::count_of;
use super::little_endian::index;
use super::records::{attribute, effect, type_effect};
use columns::{
    ATTRIBUTE_SLOTS, AttributePlaces, EFFECT_SLOTS, EffectPlaces, PLACE_EFFECT, PLACE_TYPE,
    TABLE_ATTRIBUTES, TABLE_EFFECTS, TABLE_TYPE_EFFECTS, TablePairs,
};
use numbers::integers::bits;

// The slot of an effect or a type.
pub fn effect_slot(id: i32) -> usize
    ensures inside { result < 1024 }
{
    index(bits(id) % 1024)
}

// The slot of an attribute.
pub fn attribute_slot(id: i32) -> usize
    ensures inside { result < 4096 }
{
    index(bits(id) % 4096)
}

// A place that was told, as an index.
pub fn place_of(told: u16) -> usize {
    told as usize
}

// The places of all effects.
fn tell_effects(places: &mut EffectPlaces, book: &[u8], pairs: &TablePairs)
    requires held_book { HeldBook book.now pairs.now }
{
    let n = count_of(pairs, TABLE_EFFECTS);
    for i in 0..n {
        let e = effect(book, pairs, i);
        let at = effect_slot(e.id);
        let place = i as u16;
        places[at][PLACE_EFFECT] = place;
    }
}

// The place of the first effect of each type: from the last on, so that the first stays.
fn tell_types(places: &mut EffectPlaces, book: &[u8], pairs: &TablePairs)
    requires held_book { HeldBook book.now pairs.now }
{
    for i in (0..count_of(pairs, TABLE_TYPE_EFFECTS)).rev() {
        let t = type_effect(book, pairs, i);
        let at = effect_slot(t.type_id);
        let place = i as u16;
        places[at][PLACE_TYPE] = place;
    }
}

// The places of effects and types.
pub fn effect_places(book: &[u8], pairs: &TablePairs) -> EffectPlaces
    requires held_book { HeldBook book.now pairs.now }
{
    let none = [0u16; 2];
    let mut places = [none; EFFECT_SLOTS];
    tell_effects(&mut places, book, pairs);
    tell_types(&mut places, book, pairs);
    places
}

// The places of attributes.
pub fn attribute_places(book: &[u8], pairs: &TablePairs) -> AttributePlaces
    requires held_book { HeldBook book.now pairs.now }
{
    let mut places = [0u16; ATTRIBUTE_SLOTS];
    let n = count_of(pairs, TABLE_ATTRIBUTES);
    for i in 0..n {
        let a = attribute(book, pairs, i);
        let at = attribute_slot(a.id);
        let place = i as u16;
        places[at] = place;
    }
    places
}
