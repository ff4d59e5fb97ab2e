// Judges the shape of kept sheets, sound and damaged, and counts the verdicts that are as expected.
// Standard input has the steps that make them, from cases/make_damaged.py, which says how.
#![tactic(auto)]

ghost use Rattle.std.specs.Prelude.{◌+◌, ◌≤◌};

use info::little_endian::u32_at;
use program::fill;
use shape::{BadTable, shape};
use std::fmt;
use std::io::Read;

// What is said of the first bytes of a sheet: its shape, or that there are not so many.
#[derive(Clone, Copy, PartialEq, Eq)]
enum Verdict {
    Sound,
    Bad(BadTable),
    Missing,
}

// The number of a verdict: the first bad table, 255 for a sound sheet.
impl From<u32> for Verdict {
    fn from(number: u32) -> Verdict {
        match number {
            255 => Verdict::Sound,
            254 => Verdict::Missing,
            table => Verdict::Bad(BadTable { table }),
        }
    }
}

impl fmt::Display for Verdict {
    fn fmt<W: fmt::Write>(&self, f: &mut fmt::Formatter<W>) -> fmt::Result {
        let number = match *self {
            Verdict::Sound => 255,
            Verdict::Missing => 254,
            Verdict::Bad(BadTable { table }) => table,
        };
        write!(f, "{number}")
    }
}

// How many verdicts were as expected, and how many not.
#[derive(Clone, Copy, Default)]
struct Tally {
    same: u32,
    other: u32,
}

// Puts a number at a place, if it lies inside.
fn put(sheet: &mut [u8], at: u32, x: u32) {
    let at = at as usize;
    if let Some(place) = sheet.get_mut(at..at + 4) {
        place.copy_from_slice(&x.to_le_bytes());
    }
}

// Puts n numbers, each `stride` bytes on and `more` greater.
fn put_all(sheet: &mut [u8], at: u32, x: u32, n: u32, stride: u32, more: u32) {
    let mut place = at;
    let mut value = x;
    for _ in 0..n {
        put(sheet, place, value);
        place = place.wrapping_add(stride);
        value = value.wrapping_add(more);
    }
}

// The verdict on the first n bytes.
fn verdict_on(sheet: &[u8], n: usize) -> Verdict {
    match sheet.get(..n).map(shape) {
        Some(Ok(())) => Verdict::Sound,
        Some(Err(bad)) => Verdict::Bad(bad),
        None => Verdict::Missing,
    }
}

// Judges the first n bytes; where they are not as expected, says which case differs, and how.
fn judge(rt: &HostRuntime, sheet: &[u8], n: u32, expected: Verdict, tally: &mut Tally) {
    let found = verdict_on(sheet, n as usize);
    if found == expected {
        tally.same = tally.same.wrapping_add(1);
        return;
    }
    let case = tally.same.wrapping_add(tally.other);
    let _ = println!(rt; "case {case}: {found}, expected {expected}");
    tally.other = tally.other.wrapping_add(1);
}

// Takes a step, if there is one; whether there was.
fn take_step<R: Read>(
    sheet: &mut [u8],
    reader: &mut R,
    rt: &HostRuntime,
    tally: &mut Tally,
) -> bool {
    let mut step = [0u8; 24];
    if fill(&mut step, reader) < 24 {
        return false;
    }
    let a = u32_at(&step, 4);
    let b = u32_at(&step, 8);
    if u32_at(&step, 0) == 2 {
        judge(rt, sheet, a, Verdict::from(b), tally);
    } else {
        let n = u32_at(&step, 12);
        put_all(sheet, a, b, n, u32_at(&step, 16), u32_at(&step, 20));
    }
    true
}

// Takes steps while there are any. No run has as many as the turns.
fn run(sheet: &mut [u8], rt: &HostRuntime) -> Tally {
    let mut tally = Tally::default();
    let mut reader = rt.reader();
    for _ in 0..u32::MAX {
        if !take_step(sheet, &mut reader, rt, &mut tally) {
            break;
        }
    }
    tally
}

// Zeros by a call: where a literal of this length is lent, the check would compute every element.
fn blank() -> [u8; 540672] {
    [0u8; 540672]
}

fn main(rt: HostRuntime) {
    let mut sheet = blank();
    let Tally { same, other } = run(&mut sheet, &rt);
    let _ = println!(rt; "shape {same} as expected, {other} not");
}
