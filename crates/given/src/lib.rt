// A listed value beside what the rules give from the other listed values: no attribute is calculated by descent.
#![tactic(auto)]

ghost use Rattle.std.specs.Prelude.{◌≡◌, true, ◌<◌, map, T, length, get_or};
ghost use Rattle.laws.specs.Options.{option_of};
ghost use Rattle.std.proofs.Math.Option.{none};
ghost use Rattle.laws.specs.Floats.{finite};
ghost use Rattle.memory.specs.Steps.{row_at};
ghost use Rattle.settled.specs.Given.{given};
ghost use Rattle.settled.specs.Lines.{line_of, same_float, is_given, first_wrong, first_bad};
ghost use Rattle.memory.specs.Holding.{tables_of};
ghost use Rattle.given.specs.Judging.{Judged, Awaits, LaidUnless, calculated_from, GotIs, Restored, KeptIf, KeptUnless};

use columns::{SOURCE_FLOATS, SOURCE_WIDTH};
use idle::idles_have_strength;
use lines::{LineRow, first_other, set_listed};
use memory::ReadColumns;
use memory::apply::Got;
use pass_3::calculate_value;
use reading::stretches::is_bare;
use rules::Refusal;
use sources::Recording;

// A row's value from the other listed values: its base where nothing touches it; else its own listed value is taken out of the column
// meanwhile, so only its own calculation starts.
fn given_at(values: &mut [f64], columns: &ReadColumns, row: usize) -> Result<Got, Refusal>
    requires judged { Judged (tables_of columns.now) values.old }
    requires within { row < length columns.now.rows.now }
    ensures defined { (h : Judged (tables_of columns.now) values.old) → GotIs (calculated_from h.world h.values row) result }
    ensures kept { Restored result values }
{
    if is_bare(columns.rows, columns.limits, row) {
        return Ok(Got {
            value: columns.bases[row],
            used: 0,
        });
    }
    let listed = values[row];
    values[row] = f64::NAN;
    let mut sources = [[0u32; SOURCE_WIDTH]; 1];
    let mut floats = [[0.0; SOURCE_FLOATS]; 1];
    let run = Recording {
        room: 0,
        recording: false,
    };
    let got = calculate_value(values, &mut sources, &mut floats, columns, run, row, 1, 0);
    values[row] = listed;
    got
}

// Whether two numbers have the same 64 bits: -0.0 is not 0.0.
fn has_bits(x: f64, y: f64) -> bool
    requires numbers { T (finite x) × T (finite y) }
    ensures defined { result ≡ same_float x y }
{
    x.to_bits() == y.to_bits()
}

// Whether a row's listed value is what the rules give from the others, its idle entries read too where the sheet records.
fn is_right(values: &mut [f64], columns: &ReadColumns, recording: bool, row: usize) -> bool
    requires judged { Judged (tables_of columns.now) values.old }
    requires within { row < length columns.now.rows.now }
    ensures defined { (h : Judged (tables_of columns.now) values.old) → recording ≡ h.world.recording
        → result ≡ is_given (given h.world h.values row (row_at h.world row)) (get_or h.values row none) }
    ensures kept { KeptIf result values }
{
    let listed = values[row];
    if listed.is_nan() {
        return false;
    }
    let Ok(got) = given_at(values, columns, row) else {
        return false;
    };
    if !has_bits(got.value, listed) {
        return false;
    }
    !recording || idles_have_strength(values, columns, row)
}

// The first row whose listed value is not what the rules give from the others.
pub fn first_wrong(values: &mut [f64], columns: &ReadColumns, recording: bool) -> Option<usize>
    requires judged { Judged (tables_of columns.now) values.old }
    ensures defined { (h : Judged (tables_of columns.now) values.old) → recording ≡ h.world.recording
        → option_of result ≡ first_wrong h.world h.values 0 h.world.rows }
    ensures kept { KeptUnless result values }
{
    for i in 0..columns.rows.len() {
        if !is_right(values, columns, recording, i) {
            return Some(i);
        }
    }
    None
}

// The first bad line: rows are compared before values.
pub fn first_bad(
    values: &mut [f64],
    columns: &ReadColumns,
    listing: &[LineRow],
    recording: bool,
) -> Option<usize>
    requires awaits { Awaits (tables_of columns.now) values.old }
    ensures defined { (h : Awaits (tables_of columns.now) values.old) → recording ≡ h.world.recording
        → option_of result ≡ first_bad h.world (map line_of listing.now) }
    ensures laid { LaidUnless result listing.now values.new }
{
    if let Some(other) = first_other(columns.rows, listing) {
        return Some(other);
    }
    set_listed(values, listing);
    first_wrong(values, columns, recording)
}

pub mod idle;
pub mod lines;
