// States and max states after collection (Item::collect_effects, PassTwo::pass).
#![tactic(auto)]

ghost use Rattle.std.specs.Prelude.{◌≡◌, true, ◌&&◌, ◌||◌, cond, [], length, get_or, ◌+◌, ◌-◌, ◌≤◌, ◌<◌, max, min};
ghost use Rattle.laws.specs.Lists.{span};
ghost use Rattle.rules.specs.Bytes.{count_of};
ghost use Rattle.rules.specs.Sheet.{Book, Fit, book_of, fit_of};
ghost use Rattle.rules.specs.Info.{get_dogma_effects};
ghost use Rattle.rules.specs.Item.{is_item, is_charge, item_of, passed, structure_fit};
ghost use Rattle.rules.specs.States.{collected_states, states_of};
ghost use Rattle.info.specs.At.{book_at, fit_at};
ghost use Rattle.info.specs.LookUps.{Stretch};
ghost use Rattle.info.specs.declared.look_ups.TypeEffects.{TypeEffects};
ghost use Rattle.info.specs.Sound.{HeldBook, HeldFit, SoundBook, SoundFit};
ghost use Rattle.item.specs.Categories.{CategoriesOf};
ghost use Rattle.states.specs.Marked.{EffectsMarked, TypesMarked};
ghost use Rattle.states.specs.Raised.{among, both, reach_on, base_effects_of, Turn, turns_at, reached_of, able_of, ObjectOf, rows_of};

use columns::{
    EffectPlaces, OBJECTS, STATE_WIDTH, StateRow, States, TABLE_EFFECTS, TABLE_OBJECTS,
    TABLE_TYPE_EFFECTS, TablePairs,
};
use info::header::count_of;
use info::little_endian::index;
use info::look_ups::{TypeEffects, get_base, get_dogma_effect, get_dogma_effects};
use info::records::{effect, object, type_effect};
use item::categories::categories_of;
use item::kinds::{is_charge, is_item, is_projected, mutated, mutation_base};
use item::locations::{Categories, is_on_char, is_passed, is_rig, is_subsystem};
use item::states::raises_to;
use numbers::integers::bits;
use rules::{ATTRIBUTE_CAPACITOR_NEED_ID, CATEGORY_STRUCTURE, Item, TypeDogmaEffect};

// Marks by ids modulo 1,024: of effects that can raise a max state, of types that have one.
const RAISE_MARKS: usize = 1024;

type RaiseMarks = [u8; RAISE_MARKS];

// Whether one of `count` type effects from `first` on has this one's effect.
pub fn has_effect(
    book: &[u8],
    pairs: &TablePairs,
    first: usize,
    count: usize,
    t: TypeDogmaEffect,
) -> bool
    requires held_book { HeldBook book.now pairs.now }
    requires inside { first + count ≤ count_of pairs.now 4 }
    ensures defined { result ≡ among (span first count (book_at book pairs).type_effects) t }
{
    let end = first + count;
    (first..end).any(|i| type_effect(book, pairs, i).effect_id == t.effect_id)
}

// Whether the hull is a structure.
pub fn is_structure_fit(fit: &[u8], pairs: &TablePairs) -> bool
    requires held_fit { HeldFit fit.now pairs.now }
    ensures defined { result ≡ structure_fit (fit_at fit pairs) }
{
    count_of(pairs, TABLE_OBJECTS) != 0 && object(fit, pairs, 0).category_id == CATEGORY_STRUCTURE
}

// Whether an item is passed over, or the item of a charge.
pub fn is_passed_over(
    fit: &[u8],
    pairs: &TablePairs,
    categories: Categories,
    structure: bool,
    o: Item,
) -> bool
    requires held_fit { HeldFit fit.now pairs.now }
    requires inside { o.number < count_of pairs.now 6 }
    requires of_the_fit { structure ≡ structure_fit (fit_of fit.now pairs.now) }
    ensures defined { let f = fit_at fit pairs in
        ((k : Book) → CategoriesOf k categories → result ≡ is_item o && passed k f o || is_charge o && passed k f (item_of f o)) }
{
    if is_charge(o) {
        let m = object(fit, pairs, index(o.number.saturating_sub(1)));
        return is_passed(categories, structure, m);
    }
    is_item(o) && is_passed(categories, structure, o)
}

// The states of an object that collection does not pass over, with the max state that it was raised to.
pub fn collected_states(o: Item, top: u32) -> StateRow
    ensures defined { (k : Book) (f : Fit) → top ≡ able_of k f o → result ≡ both (collected_states k f o) }
{
    if is_subsystem(o) {
        return [1, 1];
    }
    [o.state.min(top), top]
}

// The state that one effect lets an object be in.
fn reach_by(
    book: &[u8],
    pairs: &TablePairs,
    places: &EffectPlaces,
    o: Item,
    t: TypeDogmaEffect,
) -> u32
    requires sound_book { SoundBook book.now pairs.now }
    ensures defined { result ≡ reach_on (book_at book pairs) o t }
{
    match get_dogma_effect(book, pairs, places, t.effect_id) {
        Some(e) => raises_to(o, e.category),
        None => 0,
    }
}

// The effects of the type that an object was mutated from: none where it was not.
pub fn base_effects(
    book: &[u8],
    pairs: &TablePairs,
    places: &EffectPlaces,
    base: Option<i32>,
) -> TypeEffects
    requires sound_book { SoundBook book.now pairs.now }
    ensures together { let k = book_at book pairs in
        Stretch (base_effects_of k base) k.type_effects result.first result.count }
{
    let Some(id) = base else {
        return TypeEffects { first: 0, count: 0 };
    };
    get_dogma_effects(book, pairs, places, id)
}

// Effect k of an object: of its own type's, then of its base's. One loop over both is put into its caller, two are not.
pub fn effect_at(
    book: &[u8],
    pairs: &TablePairs,
    own: TypeEffects,
    base: TypeEffects,
    k: usize,
) -> TypeDogmaEffect
    requires held_book { HeldBook book.now pairs.now }
    requires inside { (own.first + own.count ≤ count_of pairs.now 4) × (base.first + base.count ≤ count_of pairs.now 4) }
    requires one_of_them { k < own.count + base.count }
    ensures defined { (d : Turn) → result ≡ (get_or (turns_at book pairs own base) k d).effect }
{
    if k < own.count {
        return type_effect(book, pairs, own.first + k);
    }
    type_effect(book, pairs, base.first + (k - own.count))
}

// Whether effect k is of the base's, and the type has it too.
pub fn is_doubled(
    book: &[u8],
    pairs: &TablePairs,
    own: TypeEffects,
    k: usize,
    t: TypeDogmaEffect,
) -> bool
    requires held_book { HeldBook book.now pairs.now }
    requires inside { own.first + own.count ≤ count_of pairs.now 4 }
    ensures defined { (base : TypeEffects) (d : Turn) → k < own.count + base.count → base.first + base.count ≤ count_of pairs.now 4
        → t ≡ (get_or (turns_at book pairs own base) k d).effect → result ≡ (get_or (turns_at book pairs own base) k d).over }
{
    own.count <= k && has_effect(book, pairs, own.first, own.count, t)
}

// Marks the effects that can raise the max state of an object that is no rig.
fn mark_effects(marks: &mut RaiseMarks, book: &[u8], pairs: &TablePairs)
    requires even { length marks.old ≡ 1024 }
    requires held_book { HeldBook book.now pairs.now }
    ensures marked { EffectsMarked (book_at book pairs) marks.new }
{
    for i in 0..count_of(pairs, TABLE_EFFECTS) {
        let e = effect(book, pairs, i);
        // Online, Active, Overload
        if matches!(e.category, 1..=3) {
            marks[index(bits(e.id) % 1024)] = 1;
        }
    }
}

// Marks the types that have such an effect.
fn mark_types(marks: &mut RaiseMarks, raising: &RaiseMarks, book: &[u8], pairs: &TablePairs)
    requires even { length marks.old ≡ 1024 }
    requires held_book { HeldBook book.now pairs.now }
    requires raising { EffectsMarked (book_of book.now pairs.now) raising.now }
    ensures marked { TypesMarked (book_at book pairs) marks.new }
{
    for i in 0..count_of(pairs, TABLE_TYPE_EFFECTS) {
        let t = type_effect(book, pairs, i);
        if raising[index(bits(t.effect_id) % 1024)] != 0 {
            marks[index(bits(t.type_id) % 1024)] = 1;
        }
    }
}

// Whether no effect of an object can raise it: its type is not marked, it was not mutated, and it is no rig.
fn is_settled(marks: &RaiseMarks, o: Item) -> bool
    ensures settled { (k : Book) → TypesMarked k marks.now → result ≡ true → reached_of k o ≡ o.max_state }
{
    !mutated(o) && !is_rig(o) && marks[index(bits(o.type_id) % 1024)] == 0
}

// The max state that all its effects raise an object to: its own type's, then its base's that the type lacks.
fn reached(
    book: &[u8],
    pairs: &TablePairs,
    places: &EffectPlaces,
    marks: &RaiseMarks,
    o: Item,
) -> u32
    requires sound_book { SoundBook book.now pairs.now }
    requires marked { TypesMarked (book_of book.now pairs.now) marks.now }
    ensures defined { result ≡ reached_of (book_at book pairs) o }
{
    if is_settled(marks, o) {
        return o.max_state;
    }
    let own = get_dogma_effects(book, pairs, places, o.type_id);
    let base = base_effects(book, pairs, places, mutation_base(o));
    let total = own.count + base.count;
    let mut top = o.max_state;
    for k in 0..total {
        let t = effect_at(book, pairs, own, base, k);
        if !is_doubled(book, pairs, own, k, t) {
            top = top.max(reach_by(book, pairs, places, o, t));
        }
    }
    top
}

// With attribute 6 it can be Active.
fn able(
    book: &[u8],
    fit: &[u8],
    pairs: &TablePairs,
    places: &EffectPlaces,
    marks: &RaiseMarks,
    o: Item,
) -> u32
    requires sound_book { SoundBook book.now pairs.now }
    requires sound_fit { SoundFit fit.now pairs.now }
    requires marked { TypesMarked (book_of book.now pairs.now) marks.now }
    requires an_object { ObjectOf (fit_of fit.now pairs.now) o }
    ensures defined { result ≡ able_of (book_at book pairs) (fit_at fit pairs) o }
{
    let top = reached(book, pairs, places, marks, o);
    match get_base(fit, pairs, o, ATTRIBUTE_CAPACITOR_NEED_ID) {
        Some(_) => top.max(2),
        None => top,
    }
}

// The states of an object: projected, a structure fit's implant, passed over, or collected.
fn states_of(
    book: &[u8],
    fit: &[u8],
    pairs: &TablePairs,
    places: &EffectPlaces,
    marks: &RaiseMarks,
    c: Categories,
    structure: bool,
    o: Item,
) -> StateRow
    requires sound_book { SoundBook book.now pairs.now }
    requires sound_fit { SoundFit fit.now pairs.now }
    requires marked { TypesMarked (book_of book.now pairs.now) marks.now }
    requires the_categories { CategoriesOf (book_of book.now pairs.now) c }
    requires structure { structure ≡ structure_fit (fit_of fit.now pairs.now) }
    requires an_object { ObjectOf (fit_of fit.now pairs.now) o }
    ensures defined { result ≡ both (states_of (book_at book pairs) (fit_at fit pairs) o) }
{
    if is_projected(o) {
        return [o.state, o.max_state];
    }
    if is_item(o) & structure & is_on_char(o) {
        return [0, o.max_state];
    }
    if is_passed_over(fit, pairs, c, structure, o) {
        return [o.state, o.max_state];
    }
    let top = able(book, fit, pairs, places, marks, o);
    collected_states(o, top)
}

// Every object's state and max state after collection, and zeros past the last.
pub fn correct_states(
    states: &mut States,
    book: &[u8],
    fit: &[u8],
    pairs: &TablePairs,
    places: &EffectPlaces,
)
    requires sound_book { SoundBook book.now pairs.now }
    requires sound_fit { SoundFit fit.now pairs.now }
    ensures defined { states.new ≡ rows_of (book_at book pairs) (fit_at fit pairs) }
{
    let c = categories_of(book, pairs);
    let structure = is_structure_fit(fit, pairs);
    let mut raising = [0u8; RAISE_MARKS];
    mark_effects(&mut raising, book, pairs);
    let mut marks = [0u8; RAISE_MARKS];
    mark_types(&mut marks, &raising, book, pairs);
    *states = [[0u32; STATE_WIDTH]; OBJECTS];
    for i in 0..count_of(pairs, TABLE_OBJECTS) {
        let o = object(fit, pairs, i);
        states[i] = states_of(book, fit, pairs, places, &marks, c, structure, o);
    }
}
