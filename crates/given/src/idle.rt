// Entries that do not run: where the sheet records, each is to have a strength all the same.
ghost use Rattle.std.specs.Prelude.{◌≡◌, ℕ, ◌<◌, length};
ghost use Rattle.rules.specs.Dispatch.{Row};
ghost use Rattle.rules.specs.Fresh.{unrecorded};
ghost use Rattle.rules.specs.Outcome.{blank};
ghost use Rattle.memory.specs.Holding.{Good};
ghost use Rattle.memory.specs.Steps.{row_at};
ghost use Rattle.settled.specs.Given.{listed_reader, idle, idles};
ghost use Rattle.memory.specs.Holding.{tables_of};
ghost use Rattle.given.specs.Judging.{Judged, float_in, held_up, is_ok, looks};

use columns::{ROW_ENTRY_COUNT, ROW_FIRST_ENTRY};
use info::little_endian::index;
use info::look_ups::get_dogma_attribute;
use memory::ReadColumns;
use numbers::product;
use reading::entries::{entry_at, is_running};
use reading::stretches::find;
use rules::{Effect, Origin};

// A value as it is listed: an absent attribute's default, NaN where its line has none.
fn listed_value(values: &[f64], columns: &ReadColumns, object: u32, attribute: i32) -> f64
    requires judged { Judged (tables_of columns.now) values.now }
    requires an_object { object < 1024 }
    ensures defined { (h : Judged (tables_of columns.now) values.now) → result ≡ float_in (listed_reader h.world h.values object attribute) }
{
    match find(columns.rows, columns.stretches, object, attribute) {
        Some(row) => values[row],
        None => get_dogma_attribute(columns.book, columns.pairs, attribute).default_value,
    }
}

// Whether a strength that is read stands against the ship's resistance, where one is named.
fn is_held(values: &[f64], columns: &ReadColumns, resistance: Option<i32>, v: f64) -> bool
    requires judged { Judged (tables_of columns.now) values.now }
    ensures defined { (h : Judged (tables_of columns.now) values.now) → result ≡ held_up h.world h.values resistance v }
{
    match resistance {
        None => !v.is_nan(),
        Some(attribute) => {
            let q = listed_value(values, columns, 0, attribute);
            product(v, q).is_some()
        }
    }
}

// Whether an entry has a strength by the listing, if it does not run.
fn has_strength(values: &[f64], columns: &ReadColumns, e: Effect) -> bool
    requires judged { Judged (tables_of columns.now) values.now }
    requires good { Good e }
    ensures defined { (h : Judged (tables_of columns.now) values.now) (i : ℕ) (row : Row)
        → result ≡ is_ok (idle (unrecorded h.world) (looks h.world h.values) i row e e.origin (blank h.world.rows)) }
{
    if is_running(columns.states, e.origin) {
        return true;
    }
    match e.origin {
        Origin::Buff { .. } => true,
        Origin::Effect {
            source,
            attribute_id,
            ..
        } => {
            let v = listed_value(values, columns, source, attribute_id);
            is_held(values, columns, e.resistance, v)
        }
    }
}

// Whether each entry of a row that does not run has a strength by the listing.
pub fn idles_have_strength(values: &[f64], columns: &ReadColumns, row: usize) -> bool
    requires judged { Judged (tables_of columns.now) values.now }
    requires within { row < length columns.now.rows.now }
    ensures defined { (h : Judged (tables_of columns.now) values.now)
        → result ≡ is_ok (idles (unrecorded h.world) (looks h.world h.values) row (row_at h.world row)
        (row_at h.world row).entries (blank h.world.rows)) }
{
    let first = index(columns.rows[row][ROW_FIRST_ENTRY]);
    let count = index(columns.rows[row][ROW_ENTRY_COUNT]);
    for k in 0..count {
        let e = entry_at(columns.entries, columns.entry_values, first + k);
        if !has_strength(values, columns, e) {
            return false;
        }
    }
    true
}
