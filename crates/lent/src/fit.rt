// 1 SHAPE over lent tables 6 to 10: the reader's tests of one record, in its order.
ghost use Rattle.std.specs.Prelude.{◌≡◌, true, ◌&&◌, [], ◌∷◌, map, ◌+◌, ◌≤◌, length};
ghost use Rattle.laws.specs.Floats.{finite};
ghost use Rattle.laws.specs.Lists.{every?, ascends, span};
ghost use Rattle.rules.specs.Shape.{objects_good, asks_good, fit_bad};
ghost use Rattle.shape.specs.Ranges.{range_ascends};
ghost use Rattle.shape.specs.Shaped.{shaped_of};
ghost use Rattle.tables.specs.Tables.{fit_alike, counted, fit_fits, fit_lent, fit_tables_bad};
ghost use Rattle.tables.specs.At.{fit_in};
ghost use Rattle.lent.specs.Alone.{objects_alone, bases_alone, asks_alone};

use super::records::{ask, base_attribute, object};
use columns::{AskFields, FIT_DEPTH, FIT_RECORDING, FitNumbers, ObjectFields};
use info::little_endian::index;
use numbers::is_finite;
use rules::{CHAR, SHIP};
use shape::BadTable;
use shape::fit_tables::{base_attribute_stands, object_good, stands};
use tables::FitTables;

// Whether table 6 is good.
fn objects_good(objects: &[ObjectFields], base_attributes: &[u32], ids: &[u32]) -> bool
    requires few { length objects.now ≤ 1024 }
    ensures defined { result ≡ objects_good (objects_alone objects.now base_attributes.now ids.now) }
{
    let bases = base_attributes.len();
    let count = ids.len();
    let mut last = SHIP;
    for i in 0..objects.len() {
        let o = object(objects, i);
        let good = stands(i, last, o.kind) & object_good(o, bases, count);
        if !good {
            return false;
        }
        last = o.kind;
    }
    CHAR <= last
}

// Whether all floats of a column are finite.
fn all_finite(values: &[f64]) -> bool
    ensures defined { result ≡ every? finite values.now }
{
    values.iter().all(|x| is_finite(*x))
}

// Whether n base attributes ascend, from the first on.
fn range_ascends(base_attributes: &[u32], base_values: &[f64], first: usize, n: usize) -> bool
    requires beside { length base_attributes.now ≡ length base_values.now }
    requires inside { first + n ≤ length base_attributes.now }
    ensures defined { result ≡ ascends (map (λ x. x.attribute_id) (span first n (bases_alone [] base_attributes.now base_values.now).bases)) }
{
    let mut last = 0;
    for i in 0..n {
        let r = base_attribute(base_attributes, base_values, first + i);
        if !base_attribute_stands(i, last, r) {
            return false;
        }
        last = r.attribute_id;
    }
    true
}

// Whether the base attributes of each object ascend. The ranges are good.
fn bases_ascend(
    objects: &[ObjectFields],
    base_attributes: &[u32],
    base_values: &[f64],
    ids: &[u32],
) -> bool
    requires few { length objects.now ≤ 1024 }
    requires beside { length base_attributes.now ≡ length base_values.now }
    requires good_objects { objects_good (objects_alone objects.now base_attributes.now ids.now) ≡ true }
    ensures defined { let f = bases_alone objects.now base_attributes.now base_values.now in
        result ≡ every? (range_ascends f) f.objects }
{
    for i in 0..objects.len() {
        let o = object(objects, i);
        let first = index(o.first_attribute);
        let count = index(o.attributes);
        if !range_ascends(base_attributes, base_values, first, count) {
            return false;
        }
    }
    true
}

// Whether table 10 is good: each ask names an object.
fn asks_good(asks: &[AskFields], objects: &[ObjectFields]) -> bool
    ensures defined { result ≡ asks_good (asks_alone asks.now objects.now) }
{
    let count = objects.len();
    for i in 0..asks.len() {
        if index(ask(asks, i).object) >= count {
            return false;
        }
    }
    true
}

// Whether columns are alike, counts are allowed, and depth and recording in their ranges.
pub fn fit_fits(fit: FitTables, depth: u32, recording: u32) -> bool
    ensures defined { result ≡ fit_fits (fit_in fit.entry (depth ∷ recording ∷ [])) }
{
    let alike = (fit.base_attributes.len() == fit.base_values.len())
        & (fit.buffs.len() == fit.buff_values.len());
    let counted = (fit.objects.len() <= 1024)
        & ((fit.base_attributes.len() <= 16384)
            & ((fit.ids.len() <= 4096) & ((fit.buffs.len() <= 64) & (fit.asks.len() <= 1024))));
    alike & counted & (1 <= depth) & (depth <= 256) & (recording <= 1)
}

// The first bad table of a fit whose header fits.
pub fn fit_bad(fit: FitTables) -> Result<(), BadTable>
    requires alike { fit_alike (fit_in fit []) ≡ true }
    requires few { length fit.objects.now ≤ 1024 }
    ensures defined { result ≡ shaped_of (fit_bad (fit_lent (fit_in fit.entry []))) }
{
    if !objects_good(fit.objects, fit.base_attributes, fit.ids) {
        return Err(BadTable { table: 6 });
    }
    if !all_finite(fit.base_values) {
        return Err(BadTable { table: 7 });
    }
    if !bases_ascend(fit.objects, fit.base_attributes, fit.base_values, fit.ids) {
        return Err(BadTable { table: 7 });
    }
    if !all_finite(fit.buff_values) {
        return Err(BadTable { table: 9 });
    }
    if !asks_good(fit.asks, fit.objects) {
        return Err(BadTable { table: 10 });
    }
    Ok(())
}

// The first bad table of a fit plus 20, 20 for its header.
pub fn fit_shape(fit: FitTables, header: &FitNumbers) -> Result<(), BadTable>
    ensures defined { result ≡ shaped_of (fit_tables_bad (fit_in fit.entry header.now)) }
{
    let depth = header[FIT_DEPTH];
    let recording = header[FIT_RECORDING];
    if !fit_fits(fit, depth, recording) {
        return Err(BadTable { table: 20 });
    }
    fit_bad(fit).map_err(|bad| BadTable {
        table: bad.table + 20,
    })
}
