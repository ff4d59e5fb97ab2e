// Runs the values of standard input, which vectors/make.py made, through `numbers`: for each kind it prints
// how many there are and how many of them came out otherwise.
#![tactic(auto)]

ghost use Rattle.std.specs.Prelude.{◌+◌, ◌<◌, ◌≤◌, length};

use program::fill;
use rules::Hundredths;
use std::num::{f64_from_bits_with_nan as from_bits, f64_to_bits_with_nan as to_bits};

// The kinds of values, and the letter of each.
const KINDS: [(&str, u8); 12] = [
    ("sums", b'+'),
    ("differences", b'-'),
    ("products", b'*'),
    ("quotients", b'/'),
    ("powers", b'^'),
    ("weights", b'w'),
    ("cuts", b'c'),
    ("signs", b'i'),
    ("quantities", b'q'),
    ("hundredths", b'h'),
    ("sizes", b'<'),
    ("finite", b'f'),
];

#[derive(Clone, Copy, Default)]
struct Tally {
    seen: u64,
    wrong: u64,
}

fn digit(b: u8) -> u64
    ensures inside { result < 16 }
{
    match b {
        b'0'..=b'9' => u64::from(b - b'0'),
        b'a'..=b'f' => u64::from(b - b'a') + 10,
        _ => 0,
    }
}

// 16 hexadecimal digits.
fn field(line: &[u8], at: usize) -> u64
    requires inside { at + 16 ≤ length line.now }
{
    let mut n = 0;
    for b in &line[at..at + 16] {
        n = n % 0x1000_0000_0000_0000 * 16 + digit(*b);
    }
    n
}

fn low(n: u64) -> u32 {
    (n & 0xffff_ffff) as u32
}

fn of_step(s: Option<f64>) -> u64 {
    s.map_or(0x7ff0_0000_0000_0000, |x| to_bits(x))
}

fn of_hundredths(rounded: Option<Hundredths>) -> u64 {
    match rounded {
        Some(Hundredths { minus: true, count }) => {
            count % 0x8000_0000_0000_0000 + 0x8000_0000_0000_0000
        }
        Some(
            Hundredths {
                minus: false,
                count,
            },
        ) => count,
        None => u64::MAX,
    }
}

fn answer(kind: u8, a: u64, b: u64) -> u64 {
    match kind {
        b'+' => of_step(numbers::sum(from_bits(a), from_bits(b))),
        b'-' => of_step(numbers::difference(from_bits(a), from_bits(b))),
        b'*' => of_step(numbers::product(from_bits(a), from_bits(b))),
        b'^' => of_step(numbers::power(from_bits(a), low(b))),
        b'w' => to_bits(numbers::weight(a as usize)),
        b'c' => u64::from(numbers::integers::bits(numbers::integers::cut(from_bits(a)))),
        b'i' => u64::from(numbers::integers::bits(numbers::integers::signed(low(a)))),
        b'q' => to_bits(numbers::as_float(low(a))),
        b'h' => of_hundredths(numbers::hundredths::in_hundredths(from_bits(a))),
        b'<' => u64::from(numbers::is_smaller(from_bits(a), from_bits(b))),
        b'f' => u64::from(numbers::is_finite(from_bits(a))),
        _ => of_step(numbers::quotient(from_bits(a), from_bits(b))),
    }
}

// With a line of 53 bytes, where it is of the kind that is asked for.
fn counted(line: &[u8], kind: u8, t: Tally) -> Tally {
    if line.len() < 53 || line[0] != kind {
        return t;
    }
    let found = answer(kind, field(line, 2), field(line, 19));
    Tally {
        seen: t.seen.wrapping_add(1),
        wrong: t.wrong.wrapping_add(u64::from(found != field(line, 36))),
    }
}

fn tallied(s: &[u8], kind: u8) -> Tally {
    let mut t = Tally::default();
    for line in s.chunks_exact(53) {
        t = counted(line, kind, t);
    }
    t
}

fn main(rt: HostRuntime) {
    let mut buf = [0u8; 65536];
    let n = fill(&mut buf, &mut rt.reader());
    for (name, kind) in KINDS {
        let Tally { seen, wrong } = tallied(&buf[..n], kind);
        let _ = println!(rt; "{name} {seen} wrong {wrong}");
    }
}
