// 1 SHAPE, tables 6 to 10: whether each table of the fit is good.
ghost use Rattle.std.specs.Prelude.{◌≡◌, true, ◌&&◌, ◌||◌, map, ◌+◌, ◌≤◌, ◌<◌, eqb, ltb, length};
ghost use Rattle.std.specs.Int.Signed.{lt_z};
ghost use Rattle.laws.specs.Floats.{finite};
ghost use Rattle.laws.specs.Lists.{every?, ascends, span};
ghost use Rattle.rules.specs.Bytes.{count_of, f64_at};
ghost use Rattle.rules.specs.Sheet.{Fit, fit_of};
ghost use Rattle.rules.specs.Shape.{object_good, objects_good, bases_good, buffs_good, asks_good};
ghost use Rattle.rules.specs.Shape as rule;
ghost use Rattle.info.specs.At.{fit_at};
ghost use Rattle.info.specs.Sound.{HeldFit, Nth};
ghost use Rattle.rules.specs.declared.BaseAttribute.{BaseAttribute};
ghost use Rattle.shape.specs.Ranges.{range_ascends};

use super::book_tables::inside;
use columns::TablePairs;
use info::header::{count_of, offset_of};
use info::little_endian::{index, u32_at};
use info::records::{ask, base_attribute, object, projected_buff};
use numbers::is_finite;
use rules::{BOOSTER, BaseAttribute, CHAR, CHARGE, ITEM, Item, MODE, PROJECTED, SHIP, SKILL};

// Whether an object of kind k may stand right after one of kind a.
#[tactic(auto, unfolding(rules::specs::Shape::follows))]
fn follows(a: u32, k: u32) -> bool
    ensures defined { result ≡ rule.follows a k }
{
    // the most frequent first
    if k == SKILL {
        return CHAR <= a;
    }
    if k == ITEM {
        return (CHAR <= a) & (a != SKILL);
    }
    if k == CHARGE {
        return a == ITEM;
    }
    if k == PROJECTED {
        return (a == CHAR) | (a == PROJECTED);
    }
    if k == CHAR {
        return a <= MODE;
    }
    (k == MODE) & (a == SHIP)
}

// Whether an object's codes and ranges are good; there are n base attributes and m ids.
#[tactic(auto, unfolding(rules::specs::Shape::object_good))]
pub fn object_good(o: Item, n: usize, m: usize) -> bool
    ensures defined { (f : Fit) → n ≡ length f.bases → m ≡ length f.ids → result ≡ object_good f o }
{
    let bases = inside(o.first_attribute, o.attributes, n);
    let abilities = inside(o.first_ability, o.abilities, m);
    let side_effects = inside(o.first_side_effect, o.side_effects, m);
    (o.slot <= BOOSTER)
        & ((o.kind == ITEM) | (o.slot == 0))
        & (o.state <= 4)
        & (o.max_state <= 4)
        & (o.flags <= 3)
        & bases
        & abilities
        & side_effects
}

// Whether object i may be of kind k, after one of kind last: the first is a ship.
pub fn stands(i: usize, last: u32, k: u32) -> bool
    ensures defined { result ≡ ((eqb i 0 && eqb k 0) || (ltb 0 i && rule.follows last k)) }
{
    let after = follows(last, k);
    ((i == 0) & (k == SHIP)) | ((0 < i) & after)
}

// Whether table 6 is good: objects stand in their order, with known codes and ranges inside tables 7 and 8.
pub fn objects_good(fit: &[u8], pairs: &TablePairs) -> bool
    requires held_fit { HeldFit fit.now pairs.now }
    ensures defined { result ≡ objects_good (fit_at fit pairs) }
{
    let n = count_of(pairs, 6);
    let bases = count_of(pairs, 7);
    let ids = count_of(pairs, 8);
    let mut last = SHIP;
    for i in 0..n {
        let o = object(fit, pairs, i);
        let kind = o.kind;
        let standing = stands(i, last, kind);
        let good = standing & object_good(o, bases, ids);
        last = kind;
        if !good {
            return false;
        }
    }
    CHAR <= last
}

// Whether the float in the eight bytes from a place on is finite: its exponent's bits are not all ones.
fn finite_at(b: &[u8], at: usize) -> bool
    requires inside { at + 8 ≤ length b.now }
    ensures defined { result ≡ finite (f64_at b.now at) }
{
    let low = u32_at(b, at) as u64;
    let high = u32_at(b, at + 4) as u64;
    let n = low + 0x1_0000_0000 * high;
    n % 0x8000_0000_0000_0000 < 0x7ff0_0000_0000_0000
}

// Whether the value of base attribute i is finite.
fn base_finite(fit: &[u8], pairs: &TablePairs, i: usize) -> bool
    requires held_fit { HeldFit fit.now pairs.now }
    requires inside { i < count_of pairs.now 7 }
    ensures defined { (x : BaseAttribute) → Nth (fit_at fit pairs).bases i x → result ≡ finite x.value }
{
    let start = offset_of(pairs, 7) + 12 * i;
    let end = start + 12;
    finite_at(&fit[start..end], 4)
}

// Whether all values of table 7 are finite.
fn bases_finite(fit: &[u8], pairs: &TablePairs) -> bool
    requires held_fit { HeldFit fit.now pairs.now }
    ensures defined { result ≡ every? (λ x. finite x.value) (fit_at fit pairs).bases }
{
    let n = count_of(pairs, 7);
    for i in 0..n {
        let good = base_finite(fit, pairs, i);
        if !good {
            return false;
        }
    }
    true
}

// Whether a base attribute may stand at place i of a range, after one of id last.
pub fn base_attribute_stands(i: usize, last: i32, r: BaseAttribute) -> bool
    ensures defined { result ≡ (eqb i 0 || lt_z last r.attribute_id) }
{
    (i == 0) | (last < r.attribute_id)
}

// Whether n base attributes ascend, from the first on.
fn range_ascends(fit: &[u8], pairs: &TablePairs, first: usize, n: usize) -> bool
    requires held_fit { HeldFit fit.now pairs.now }
    requires inside { first + n ≤ count_of pairs.now 7 }
    ensures defined { result ≡ ascends (map (λ x. x.attribute_id) (span first n (fit_at fit pairs).bases)) }
{
    let mut last = 0;
    for i in 0..n {
        let r = base_attribute(fit, pairs, first + i);
        let good = base_attribute_stands(i, last, r);
        last = r.attribute_id;
        if !good {
            return false;
        }
    }
    true
}

// Whether the base attributes of each object ascend. The ranges are good.
fn bases_ascend(fit: &[u8], pairs: &TablePairs) -> bool
    requires held_fit { HeldFit fit.now pairs.now }
    requires good_objects { objects_good (fit_of fit.now pairs.now) ≡ true }
    ensures defined { result ≡ every? (range_ascends (fit_at fit pairs)) (fit_at fit pairs).objects }
{
    let n = count_of(pairs, 6);
    for i in 0..n {
        let o = object(fit, pairs, i);
        let first = index(o.first_attribute);
        let count = index(o.attributes);
        let good = range_ascends(fit, pairs, first, count);
        if !good {
            return false;
        }
    }
    true
}

// Whether table 7 is good: floats finite, and the base attributes of one object ascend strictly.
#[tactic(auto, unfolding(rules::specs::Shape::bases_good))]
pub fn bases_good(fit: &[u8], pairs: &TablePairs) -> bool
    requires held_fit { HeldFit fit.now pairs.now }
    requires good_objects { objects_good (fit_of fit.now pairs.now) ≡ true }
    ensures defined { result ≡ bases_good (fit_at fit pairs) }
{
    if !bases_finite(fit, pairs) {
        return false;
    }
    bases_ascend(fit, pairs)
}

// Whether table 9 is good: values finite.
pub fn buffs_good(fit: &[u8], pairs: &TablePairs) -> bool
    requires held_fit { HeldFit fit.now pairs.now }
    ensures defined { result ≡ buffs_good (fit_at fit pairs) }
{
    let n = count_of(pairs, 9);
    for i in 0..n {
        let r = projected_buff(fit, pairs, i);
        let good = is_finite(r.value);
        if !good {
            return false;
        }
    }
    true
}

// Whether table 10 is good: each ask names an object.
pub fn asks_good(fit: &[u8], pairs: &TablePairs) -> bool
    requires held_fit { HeldFit fit.now pairs.now }
    ensures defined { result ≡ asks_good (fit_at fit pairs) }
{
    let n = count_of(pairs, 10);
    let objects = count_of(pairs, 6);
    for i in 0..n {
        let a = ask(fit, pairs, i);
        let o = index(a.object);
        let good = o < objects;
        if !good {
            return false;
        }
    }
    true
}
