// The lines of a listing: their keys beside our rows', and their values into the value column.
ghost use Rattle.std.specs.Prelude.{◌≡◌, ◌&&◌, List, map, ◌+◌, ◌*◌, ◌≤◌, ◌<◌, ◌^◌, eqb, length, get_or};
ghost use Rattle.laws.specs.Options.{option_of};
ghost use Rattle.std.specs.Float.{binary64};
ghost use Rattle.std.specs.Float.Ieee.{of_bits};
ghost use Rattle.std.specs.Int.{w32};
ghost use Rattle.std.proofs.Common.{to_z, of_z};
ghost use Rattle.laws.specs.Columns.{Col};
ghost use Rattle.rules.specs.Dispatch.{Row};
ghost use Rattle.promises.specs.NoMemory.{key_of};
ghost use Rattle.reading.specs.Held.{RowsHeld};
ghost use Rattle.settled.specs.Lines.{first_other};
ghost use Rattle.given.specs.Judging.{shown_bits, shown_in, key_in};

use columns::{AttributeRow, ROW_ATTRIBUTE, ROW_OBJECT};
use info::little_endian::float_of;
use numbers::is_finite;

// A line: object, attribute, and the value's 64 bits as two halves.
pub type LineRow = [u32; 4];

pub const LINE_OBJECT: usize = 0;

pub const LINE_ATTRIBUTE: usize = 1;

pub const LINE_LOW: usize = 2;

pub const LINE_HIGH: usize = 3;

// A line's value by the halves of its bits; NaN where they are no finite number.
fn listed_float(low: u32, high: u32) -> f64
    ensures defined { result ≡ shown_bits low high }
{
    let bits = u64::from(low) + 0x1_0000_0000 * u64::from(high);
    let x = float_of(bits);
    if is_finite(x) { x } else { f64::NAN }
}

// The listed values, one after another into the column.
pub fn set_listed(values: &mut [f64], listing: &[LineRow])
    requires inside { length listing.now ≤ length values.old }
    ensures laid { Col shown_in listing.now values.old values.new }
{
    for (i, line) in listing.iter().enumerate() {
        values[i] = listed_float(line[LINE_LOW], line[LINE_HIGH]);
    }
}

// Whether a line has the key of a row.
fn has_key(row: AttributeRow, line: LineRow) -> bool
    ensures defined { result ≡ eqb (get_or line 0 0) (get_or row 0 0) && eqb (get_or line 1 0) (get_or row 1 0) }
    ensures and_back { of_z w32 (to_z w32 (get_or line 1 0)) ≡ get_or line 1 0 }
{
    line[LINE_OBJECT] == row[ROW_OBJECT] && line[LINE_ATTRIBUTE] == row[ROW_ATTRIBUTE]
}

// The first place where the lines' keys are not the rows', or where one of the two has ended.
pub fn first_other(rows: &[AttributeRow], listing: &[LineRow]) -> Option<usize>
    ensures defined { (rs : List Row) → RowsHeld rs rows.now
        → option_of result ≡ first_other 0 (map key_in listing.now) (map key_of rs) }
{
    for (i, row) in rows.iter().enumerate() {
        if listing.len() <= i {
            return Some(i);
        }
        if !has_key(*row, listing[i]) {
            return Some(i);
        }
    }
    if rows.len() < listing.len() {
        return Some(rows.len());
    }
    None
}
