// Room: how many rows stand before any collection, and the list that the hit past the room of entries finds full.
ghost use Rattle.std.specs.Prelude.{◌≡◌, not, ◌&&◌, cond, ℕ, ◌≤◌, eqb, length, get_or, take};
ghost use Rattle.laws.specs.Lists.{some?};
ghost use Rattle.rules.specs.Dispatch.{base_keys};
ghost use Rattle.info.specs.At.{fit_at};
ghost use Rattle.info.specs.Sound.{SoundFit};
ghost use Rattle.dispatch.specs.Keyed.{is_row};

use columns::{
    AttributeRow, HitKey, KEY_ATTRIBUTE, KEY_OBJECT, ROW_ATTRIBUTE, ROW_OBJECT, TABLE_OBJECTS,
    TablePairs,
};
use info::header::count_of;
use info::little_endian::index;
use info::records::object;

// How many base attributes all objects have: the rows that stand before any collection.
pub fn base_total(fit: &[u8], pairs: &TablePairs) -> usize
    requires sound_fit { SoundFit fit.now pairs.now }
    ensures defined { result ≡ length (base_keys (fit_at fit pairs)) }
{
    let objects = count_of(pairs, TABLE_OBJECTS);
    let mut total: usize = 0;
    for i in 0..objects {
        let o = object(fit, pairs, i);
        let attributes = index(o.attributes);
        total += attributes;
    }
    total
}

// Whether an attribute of an object has a row among the first n.
fn has_row(rows: &[AttributeRow], n: usize, object: u32, attribute: u32) -> bool
    requires inside { n ≤ length rows.now }
    ensures defined { result ≡ some? (is_row object attribute) (take n rows.now) }
{
    rows[..n].iter().any(|row| row[ROW_OBJECT] == object && row[ROW_ATTRIBUTE] == attribute)
}

// The list that the hit past the room of entries finds full, where n rows stand: it takes its row first.
pub fn full_at(rows: &[AttributeRow], past: HitKey, n: usize, room: usize) -> u32
    requires inside { n ≤ length rows.now }
    ensures the_list { let there = some? (is_row (get_or past 0 0) (get_or past 1 0)) (take n rows.now) in
        result ≡ cond (eqb n room && not there) 2 3 }
{
    if n == room && !has_row(rows, n, past[KEY_OBJECT], past[KEY_ATTRIBUTE]) {
        2
    } else {
        3
    }
}
