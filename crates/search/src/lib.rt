// An attribute sought among rows of list 2: one search for those who lay the rows and those who read them.
#![tactic(auto)]

ghost use Rattle.std.specs.Prelude.{◌+◌, ◌≤◌, length};
ghost use Rattle.search.specs.Bounds.{Lower};

use columns::{AttributeRow, ROW_ATTRIBUTE};
use laws::{Window, step};
use numbers::integers::signed;

// Where the first row whose attribute is not below the one sought lies: of eight or more a quarter and what is over is left.
fn narrowed(rows: &[AttributeRow], id: i32) -> Window
    ensures inside { result.low + result.left ≤ length rows.now }
    ensures narrowed { Lower rows.now id result.low (result.low + result.left) }
{
    let mut low: usize = 0;
    let mut left = rows.len();
    // a while: by quarters, which was measured faster than by halves (docs/DECISIONS.md, 7), as `partition_point` goes
    while 7 < left {
        let q = left / 4;
        let a = signed(rows[low + q - 1][ROW_ATTRIBUTE]);
        let m = signed(rows[low + 2 * q - 1][ROW_ATTRIBUTE]);
        let z = signed(rows[low + 3 * q - 1][ROW_ATTRIBUTE]);
        low = low + step(q, a < id) + step(q, m < id) + step(q, z < id);
        left -= 3 * q;
    }
    Window {
        low: low,
        left: left,
    }
}

// The first row whose attribute is not below the one sought: in its window those below it are counted.
pub fn lower(rows: &[AttributeRow], id: i32) -> usize
    ensures inside { result ≤ length rows.now }
    ensures defined { Lower rows.now id result result }
{
    let window = narrowed(rows, id);
    let end = window.low + window.left;
    let mut found = window.low;
    for k in window.low..end {
        let own = signed(rows[k][ROW_ATTRIBUTE]);
        found = found + step(1, own < id);
    }
    found
}
