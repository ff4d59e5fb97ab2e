// What a program says, at the front of a lent text: an answer, or the line of a refusal.
#![tactic(auto)]

ghost use Rattle.std.specs.Prelude.{◌+◌, ◌≤◌, length};
ghost use Rattle.listing.specs.Put.{Begins};
ghost use Rattle.said.specs.Said.{bad_line};

use listing::{put_text, put_u32};

// Where the line of a refusal ends, which is written to standard error in an answer's place.
#[derive(Clone, Copy, Debug, PartialEq, Eq)]
pub struct RefusalLine {
    pub end: usize,
}

// The line of a refusal of a text: what text, its first bad line, and what is wrong with it.
pub fn bad_line(out: &mut [u8], what: &[u8], line: u32, why: &[u8]) -> RefusalLine
    requires room { length what.now + 10 + length why.now ≤ length out.old }
    ensures the_line { Begins out.new result.end (bad_line what.now line why.now) }
{
    let number = put_text(out, 0, what);
    let end = put_u32(out, number, line);
    RefusalLine {
        end: put_text(out, end, why),
    }
}
