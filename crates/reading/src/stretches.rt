// A row found in its object's stretch of list 2, whether an attribute may have a limit, and the two tables that tell.
ghost use Rattle.std.specs.Prelude.{◌≡◌, true, false, List, ◌≤◌, ◌<◌, ◌^◌, length};
ghost use Rattle.laws.specs.Options.{option_of};
ghost use Rattle.rules.specs.Dispatch.{Row};
ghost use Rattle.rules.specs.Sheet.{Book, book_of};
ghost use Rattle.info.specs.Sound.{HeldBook};
ghost use Rattle.rules.specs.Value.{find_row};
ghost use Rattle.reading.specs.Held.{RowsHeld, index_of};
ghost use Rattle.reading.specs.Bare.{Bare};
ghost use Rattle.reading.specs.Stretched.{Stretched, Past, Limits, Unlimited};

use columns::{
    AttributeRow, LIMIT_MARKS, Limits, OBJECTS, ROW_ATTRIBUTE, ROW_ENTRY_COUNT, ROW_OBJECT,
    STRETCH_END, STRETCH_FIRST, Stretches, TABLE_ATTRIBUTES, TablePairs,
};
use info::header::count_of;
use info::little_endian::index;
use info::records::attribute;
use numbers::integers::{bits, signed};
use search::lower;

// The row of an attribute of an object.
pub fn find(rows: &[AttributeRow], stretches: &Stretches, object: u32, id: i32) -> Option<usize>
    requires an_object { object < 1024 }
    ensures defined { (rs : List Row) → RowsHeld rs rows.now → Stretched rs stretches.now
        → option_of result ≡ index_of (find_row object id 0 rs) }
{
    let stretch = stretches[index(object)];
    let end = index(stretch[STRETCH_END]);
    if end > rows.len() {
        return None;
    }
    let first = index(stretch[STRETCH_FIRST]);
    if end <= first {
        return None;
    }
    let at = first + lower(&rows[first..end], id);
    if at < end {
        let own = signed(rows[at][ROW_ATTRIBUTE]);
        if own == id {
            return Some(at);
        }
        return None;
    }
    None
}

// The first row from one on that is of a later object.
fn past(rows: &[AttributeRow], first: usize, object: u32) -> usize
    requires inside { first ≤ length rows.now }
    ensures past { Past rows.now object first result }
{
    for i in first..rows.len() {
        let own = rows[i][ROW_OBJECT];
        if own > object {
            return i;
        }
    }
    rows.len()
}

// The stretches of all objects, in one pass over the rows. Those of objects behind the last row are empty, and stand at the end.
pub fn set_stretches(rows: &[AttributeRow]) -> Stretches
    requires few { length rows.now < 2 ^ 32 }
    ensures stretched { (rs : List Row) → RowsHeld rs rows.now → Stretched rs result }
{
    let n = rows.len() as u32;
    let none = [n, n];
    let mut stretches = [none; OBJECTS];
    let mut first: usize = 0;
    for object in 0u32..1024 {
        if rows.len() <= first {
            break;
        }
        let end = past(rows, first, object);
        let at = index(object);
        stretches[at] = [first as u32, end as u32];
        first = end;
    }
    stretches
}

// Whether an attribute may have a limit.
pub fn is_limited(limits: &Limits, id: i32) -> bool
    ensures unlimited { (k : Book) → Limits k limits.now → result ≡ false → Unlimited k id }
{
    let mark = limits[index(bits(id) % 1024)];
    mark != 0
}

// Whether a row's value is sure to be its base: it has no entries, and its attribute has no limit.
pub fn is_bare(rows: &[AttributeRow], limits: &Limits, row: usize) -> bool
    requires within { row < length rows.now }
    ensures bare { result ≡ true → Bare rows.now limits.now row }
{
    let count = rows[row][ROW_ENTRY_COUNT];
    count == 0 && !is_limited(limits, signed(rows[row][ROW_ATTRIBUTE]))
}

// Marks of the attributes that may have a limit, by their ids modulo 1,024.
pub fn set_limits(book: &[u8], pairs: &TablePairs) -> Limits
    requires held { HeldBook book.now pairs.now }
    ensures limits { Limits (book_of book.now pairs.now) result }
{
    let attributes = count_of(pairs, TABLE_ATTRIBUTES);
    let mut marks = [0u32; LIMIT_MARKS];
    for i in 0..attributes {
        let a = attribute(book, pairs, i);
        let at = index(bits(a.id) % 1024);
        if (a.min_attribute_id != 0) | (a.max_attribute_id != 0) {
            marks[at] = 1;
        }
    }
    marks
}
