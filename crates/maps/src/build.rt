// The maps of a fit's objects, made in lent words.
ghost use Rattle.std.specs.Prelude.{◌≡◌, Bool, false, List, [], ◌∷◌, ◌++◌, ℕ, ◌+◌, ◌*◌, ◌/◌, ◌≤◌, ◌<◌, ◌^◌, eqb, length, get_or, replicate};
ghost use Rattle.laws.specs.Lists.{some?, keep};
ghost use Rattle.rules.specs.Bytes.{bits, count_of};
ghost use Rattle.info.specs.At.{book_at, fit_at, object_at};
ghost use Rattle.info.specs.Sound.{HeldBook, SoundFit};
ghost use Rattle.hits.specs.Reach.{reach_of};
ghost use Rattle.maps.specs.Words.{with_bit};
ghost use Rattle.maps.specs.Keys.{head_at, key_row, keys_of, with_key, firsts, is_key};
ghost use Rattle.maps.specs.Maps.{Mapped, Counting, MadeBy, Built, and_key, and_keys, and_columns};

use super::{KEYS, clear_map, find, group_key, head_of, width_of};
use columns::{TABLE_OBJECTS, TablePairs};
use hits::ReachRow;
use hits::reach::{NO_SKILL, reach_of, required_skills};
use info::header::count_of;
use info::records::object;
use rules::{CHARGE, ITEM};

// The six locations, as the first columns of an object.
const LOCATIONS: usize = 6;

// The keys of an object.
const KEY_WIDTH: usize = 7;

type KeyRow = [u64; KEY_WIDTH];

// The bit of object i in the map at a place.
fn set_bit(words: &mut [u64], at: usize, i: usize)
    requires inside { (i < 1024) × (at + 16 < 2 ^ 32) × (at + i / 64 < length words.old) }
    ensures defined { words.new ≡ with_bit words.old at i }
{
    let w = at + i / 64;
    let old = words[w];
    let k = (i % 64) as u32;
    let bit = 1u64 << k;
    words[w] = old | bit;
}

// A map for a key that has none: nobody is in it.
fn add_map(words: &mut [u64], heads: &mut [u32], width: usize, maps: usize, key: u64)
    requires counted { Counting maps width words.old heads.old }
    requires small { (key < 17179869184) × (maps < 7168) × (head_at width (maps + 1) ≤ length words.old) }
    ensures added { (location has : ℕ → ℕ → Bool) (ks : List ℕ) → Mapped width location has ks words.old heads.old → maps ≡ length ks
        → some? (eqb key) ks ≡ false → Mapped width location has (ks ++ (key ∷ [])) words.new heads.new }
{
    let at = head_of(width, maps);
    let slot = (key % 1024) as usize;
    let last = heads[slot];
    let before = last as u64;
    words[at] = key + KEYS * before;
    clear_map(words, at + 1, width);
    heads[slot] = (maps + 1) as u32;
}

// Object i has a key: its bit in the key's map, which is made where there is none. How many maps there are; none where the words are too few.
fn mark(
    words: &mut [u64],
    heads: &mut [u32],
    width: usize,
    maps: usize,
    key: u64,
    i: usize,
) -> Option<usize>
    requires counted { Counting maps width words.old heads.old }
    requires small { (key < 17179869184) × (maps < 7168) × (i < width * 64) }
    ensures marked { (location has : ℕ → ℕ → Bool) (ks : List ℕ) → Mapped width location has ks words.old heads.old → maps ≡ length ks
        → MadeBy result width location (and_key has key i) (with_key ks key) words.new heads.new }
{
    if let Some(m) = find(words, heads, width, key) {
        let at = head_of(width, m) + 1;
        set_bit(words, at, i);
        return Some(maps);
    }
    let at = head_of(width, maps);
    let long = words.len();
    if long < at + 1 + width {
        return None;
    }
    add_map(words, heads, width, maps, key);
    set_bit(words, at + 1, i);
    Some(maps + 1)
}

// Object i has the keys of a row; those that are no skill are passed over.
fn mark_keys(
    words: &mut [u64],
    heads: &mut [u32],
    width: usize,
    maps: usize,
    keys: KeyRow,
    i: usize,
) -> Option<usize>
    requires counted { Counting maps width words.old heads.old }
    requires small { (maps + 7 ≤ 7168) × (i < width * 64) }
    requires keys_small { (length keys ≡ 7) × ((k : ℕ) → k < 7 → get_or keys k 0 < 17179869184) }
    ensures marked { (location has : ℕ → ℕ → Bool) (ks : List ℕ) → Mapped width location has ks words.old heads.old → maps ≡ length ks
        → MadeBy result width location (and_keys has (keep is_key keys) i) (firsts ks (keep is_key keys)) words.new heads.new }
{
    let mut n = maps;
    for key in keys {
        if key != NO_SKILL {
            n = mark(words, heads, width, n, key, i)?;
        }
    }
    Some(n)
}

// The locations that let object i in, by its columns.
fn mark_columns(words: &mut [u64], width: usize, row: ReachRow, i: usize)
    requires inside { (width ≤ 16) × (6 * width ≤ length words.old) × (i < width * 64) }
    ensures marked { (location has : ℕ → ℕ → Bool) (ks hs : List ℕ) → Mapped width location has ks words.old hs
        → Mapped width (and_columns location row 6 i) has ks words.new hs }
{
    for c in 0..LOCATIONS {
        let at = c * width;
        let flag = row[c];
        if flag != 0 {
            set_bit(words, at, i);
        }
    }
}

// The keys of object i, whose group is among its columns.
fn keys_of(fit: &[u8], pairs: &TablePairs, group: u32, i: usize) -> KeyRow
    requires sound_fit { SoundFit fit.now pairs.now }
    requires an_object { i < count_of pairs.now 6 }
    ensures defined { group ≡ bits (object_at fit pairs i).group_id → result ≡ key_row (fit_at fit pairs) (object_at fit pairs i) }
    ensures small { (length result ≡ 7) × ((k : ℕ) → k < 7 → get_or result k 0 < 17179869184) }
{
    let own = group_key(group);
    let o = object(fit, pairs, i);
    let fitted = (o.kind == ITEM) | (o.kind == CHARGE);
    if fitted {
        let s = required_skills(fit, pairs, i);
        return [s[0], s[1], s[2], s[3], s[4], s[5], own];
    }
    [
        NO_SKILL, NO_SKILL, NO_SKILL, NO_SKILL, NO_SKILL, NO_SKILL, own,
    ]
}

// Object i in all maps that it belongs to.
fn mark_object(
    words: &mut [u64],
    heads: &mut [u32],
    book: &[u8],
    fit: &[u8],
    pairs: &TablePairs,
    width: usize,
    maps: usize,
    i: usize,
) -> Option<usize>
    requires held_book { HeldBook book.now pairs.now }
    requires sound_fit { SoundFit fit.now pairs.now }
    requires an_object { i < count_of pairs.now 6 }
    requires counted { Counting maps width words.old heads.old }
    requires small { (maps + 7 ≤ 7168) × (i < width * 64) }
    ensures marked { let o = object_at fit pairs i in
        ((location has : ℕ → ℕ → Bool) (ks : List ℕ) → Mapped width location has ks words.old heads.old → maps ≡ length ks
        → MadeBy result width (and_columns location (reach_of (book_at book pairs) (fit_at fit pairs) o) 6 i) (and_keys has (keys_of (fit_at fit pairs) o) i)
        (firsts ks (keys_of (fit_at fit pairs) o)) words.new heads.new) }
{
    let row = reach_of(book, fit, pairs, i);
    let keys = keys_of(fit, pairs, row[7], i);
    mark_columns(words, width, row, i);
    mark_keys(words, heads, width, maps, keys, i)
}

// The maps of all objects, with heads that are zero: how many words they take; none where the words are too few.
pub fn build(
    words: &mut [u64],
    heads: &mut [u32],
    book: &[u8],
    fit: &[u8],
    pairs: &TablePairs,
) -> Option<usize>
    requires fresh { heads.old ≡ replicate 1024 0 }
    requires held_book { HeldBook book.now pairs.now }
    requires sound_fit { SoundFit fit.now pairs.now }
    ensures built { Built (book_at book pairs) (fit_at fit pairs) (length words.old) result words.new heads.new }
{
    let objects = count_of(pairs, TABLE_OBJECTS);
    let width = width_of(objects);
    let all = LOCATIONS * width;
    let long = words.len();
    if long < all {
        return None;
    }
    clear_map(words, 0, all);
    let mut n = 0;
    for i in 0..objects {
        n = mark_object(words, heads, book, fit, pairs, width, n, i)?;
    }
    Some(head_of(width, n))
}
