// Runs `sheet_text` on every sheet of cases/, and compares what it gives with the sheet's text.
// Standard input is made by cases/make_texts.py, which says how it is read.
#![tactic(auto)]

use info::little_endian::{index, u32_at};
use program::{fill, put};
use text::{SHEET_BYTES, TEXT_BYTES, sheet_text};

// The place of the next sheet, how many there were, and how many texts were as expected.
#[derive(Clone, Copy, Default)]
struct Tally {
    at: usize,
    texts: u64,
    same: u64,
}

// The number at a place; 0 outside.
fn number(input: &[u8], at: usize) -> usize {
    if input.len() < 4 || input.len() - 4 < at {
        return 0;
    }
    index(u32_at(input, at))
}

// Whether a sheet has the text that is expected, as the program has it: of its first 65,536 bytes, and whether there are more.
fn has_text(sheet: &[u8], expected: &[u8]) -> bool {
    let mut text = [0u8; TEXT_BYTES];
    let read = sheet.len().min(SHEET_BYTES);
    let n = sheet_text(&mut text, &sheet[..read], read < sheet.len());
    &text[..n] == expected
}

// The bytes from one place up to another; none where they are cut off.
fn part(input: &[u8], from: usize, to: usize) -> Option<&[u8]> {
    input.get(..to)?.get(from..)
}

// One sheet more, and where its text is another, says which it is; behind one that is cut off there is none.
fn next(rt: &HostRuntime, input: &[u8], tally: Tally) -> Tally {
    let at = tally.at;
    let name = at.wrapping_add(12);
    let sheet = name.wrapping_add(number(input, at));
    let expected = sheet.wrapping_add(number(input, at.wrapping_add(4)));
    let end = expected.wrapping_add(number(input, at.wrapping_add(8)));
    let same = match (part(input, sheet, expected), part(input, expected, end)) {
        (Some(bytes), Some(text)) => has_text(bytes, text),
        _ => false,
    };
    if !same && let Some(name) = part(input, name, sheet) {
        put(rt, name);
        put(rt, b" has another text\n");
    }
    Tally {
        at: if end < name { input.len() } else { end },
        texts: tally.texts.wrapping_add(1),
        same: tally.same.wrapping_add(u64::from(same)),
    }
}

// Takes one sheet after the other. There are fewer than the turns.
fn run(rt: &HostRuntime, input: &[u8]) -> Tally {
    let mut tally = Tally::default();
    for _ in 0..u32::MAX {
        if input.len() <= tally.at {
            break;
        }
        tally = next(rt, input, tally);
    }
    tally
}

fn main(rt: HostRuntime) {
    let mut input = [0u8; 262144];
    let n = fill(&mut input, &mut rt.reader());
    let Tally { texts, same, .. } = run(&rt, &input[..n]);
    let _ = println!(rt; "{same} of {texts} texts are as expected");
}
