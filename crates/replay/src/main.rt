// Calculates the kept sheets anew and compares every number of every list with the kept answer.
// Standard input is cases/kept.bin; cases/make_kept.py says how it is read.
#![tactic(auto)]

use calculate::{Outcome, dogma_calculate};
use columns::{
    AttributeRow, CollectedRow, ENTRY_WIDTH, EntryRow, PlainRow, SOURCE_WIDTH, SourceFloats,
    SourceRow, StateRow,
};
use info::little_endian::{index, u32_at};
use program::fill;
use std::num::f64_to_bits_with_nan;

// What a column holds before the call: no kept number.
const RUBBISH: u32 = 0xa5c3_96e1;

// ---- kept numbers

// The number at a place; 0 outside.
fn number(data: &[u8], at: usize) -> u32 {
    if data.len() < 4 || data.len() - 4 < at {
        return 0;
    }
    u32_at(data, at)
}

// A number of a case's head.
fn head(data: &[u8], at: usize, k: usize) -> usize {
    index(number(data, at.wrapping_add(k.wrapping_mul(4))))
}

// ---- comparing

// The kept numbers, the place in them, how many were compared, and how many differ.
#[derive(Clone, Copy)]
struct Seen<'a> {
    data: &'a [u8],
    at: usize,
    compared: u64,
    differ: u64,
}

impl Seen<'_> {
    // A number that was found: against the next that is kept, or, in an unused end, against 0.
    fn see(&mut self, found: u64, kept: bool) {
        let mut expected = 0;
        if kept {
            expected = u64::from(number(self.data, self.at));
            self.at = self.at.wrapping_add(4);
        }
        self.compared = self.compared.wrapping_add(1);
        self.differ = self.differ.wrapping_add(u64::from(found != expected));
    }

    fn see_row(&mut self, row: &[u32], kept: bool) {
        for found in row {
            self.see(u64::from(*found), kept);
        }
    }

    fn see_rows<const WIDTH: usize>(&mut self, column: &[[u32; WIDTH]], count: usize) {
        for (i, row) in column.iter().enumerate() {
            self.see_row(row, i < count);
        }
    }

    // The low half comes first.
    fn see_float(&mut self, found: f64, kept: bool) {
        let bits = f64_to_bits_with_nan(found);
        self.see(bits % 0x1_0000_0000, kept);
        self.see(bits / 0x1_0000_0000, kept);
    }

    fn see_floats(&mut self, column: &[f64], count: usize) {
        for (i, found) in column.iter().enumerate() {
            self.see_float(*found, i < count);
        }
    }

    fn see_pairs(&mut self, column: &[SourceFloats], count: usize) {
        for (i, pair) in column.iter().enumerate() {
            self.see_float(pair[0], i < count);
            self.see_float(pair[1], i < count);
        }
    }

    // Number, place and the five counts.
    fn see_outcome(&mut self, found: Outcome) {
        self.see(found.number, true);
        self.see(found.place, true);
        self.see(found.collected, true);
        self.see(found.rows, true);
        self.see(found.entries, true);
        self.see(found.plain, true);
        self.see(found.sources, true);
    }
}

// ---- a kept sheet

// Every list that came back, as far as it was lent, and the states.
#[derive(Clone, Copy)]
struct Lists<'a> {
    states: &'a [StateRow],
    collected: &'a [CollectedRow],
    collected_values: &'a [f64],
    rows: &'a [AttributeRow],
    bases: &'a [f64],
    values: &'a [f64],
    entries: &'a [EntryRow],
    entry_values: &'a [f64],
    plain: &'a [PlainRow],
    sources: &'a [SourceRow],
    source_values: &'a [SourceFloats],
}

impl Lists<'_> {
    // The lent lengths as they are in the head.
    fn see_lent(&self, seen: &mut Seen) {
        seen.see(self.collected.len() as u64, true);
        seen.see(self.collected_values.len() as u64, true);
        seen.see(self.rows.len() as u64, true);
        seen.see(self.bases.len() as u64, true);
        seen.see(self.values.len() as u64, true);
        seen.see(self.entries.len() as u64, true);
        seen.see(self.entry_values.len() as u64, true);
        seen.see(self.plain.len() as u64, true);
        seen.see(self.sources.len() as u64, true);
        seen.see(self.source_values.len() as u64, true);
    }

    // Every element of every column, of the case at a place.
    fn see_columns(&self, seen: &mut Seen, at: usize) {
        let data = seen.data;
        seen.see_rows(self.states, head(data, at, 18));
        seen.see_rows(self.collected, head(data, at, 13));
        seen.see_floats(self.collected_values, head(data, at, 13));
        seen.see_rows(self.rows, head(data, at, 14));
        seen.see_floats(self.bases, head(data, at, 14));
        seen.see_floats(self.values, head(data, at, 14));
        seen.see_rows(self.entries, head(data, at, 15));
        seen.see_floats(self.entry_values, head(data, at, 15));
        seen.see_rows(self.plain, head(data, at, 16));
        seen.see_rows(self.sources, head(data, at, 17));
        seen.see_pairs(self.source_values, head(data, at, 17));
    }
}

// Where the kept numbers go on behind a sheet: at the next multiple of four.
fn behind(start: usize, length: usize) -> usize {
    start.wrapping_add(length.div_ceil(4).wrapping_mul(4))
}

// Everything that came back, and that no kept number lies outside what was read.
fn see_all<'a>(lists: Lists, data: &'a [u8], at: usize, found: Outcome) -> Seen<'a> {
    let mut seen = Seen {
        data,
        at: at.wrapping_add(4),
        compared: 0,
        differ: 0,
    };
    lists.see_lent(&mut seen);
    seen.see_outcome(found);
    seen.at = behind(at.wrapping_add(76), head(data, at, 0));
    lists.see_columns(&mut seen, at);
    seen
}

// The sheet of the case at a place; none where it is cut off.
fn sheet_of(data: &[u8], at: usize) -> Option<&[u8]> {
    data.get(at.wrapping_add(76)..)?.get(..head(data, at, 0))
}

// A case, with as many rows lent of each column as it says, full of rubbish; what is cut off differs.
fn replayed(data: &[u8], at: usize) -> Seen {
    let Some(sheet) = sheet_of(data, at) else {
        return Seen {
            data,
            at: data.len(),
            compared: 0,
            differ: 1,
        };
    };
    let mut states = [[RUBBISH; 2]; 1024];
    let mut collected = [[RUBBISH; 14]; 128];
    let mut collected_values = [1.5; 128];
    let mut rows = [[RUBBISH; 6]; 128];
    let mut bases = [1.5; 128];
    let mut values = [1.5; 128];
    let mut entries = [[RUBBISH; ENTRY_WIDTH]; 128];
    let mut entry_values = [1.5; 128];
    let mut plain = [[RUBBISH; 2]; 128];
    let mut sources = [[RUBBISH; SOURCE_WIDTH]; 128];
    let mut source_values = [[1.5; 2]; 128];
    let collected = &mut collected[..head(data, at, 1).min(128)];
    let collected_values = &mut collected_values[..head(data, at, 2).min(128)];
    let rows = &mut rows[..head(data, at, 3).min(128)];
    let bases = &mut bases[..head(data, at, 4).min(128)];
    let values = &mut values[..head(data, at, 5).min(128)];
    let entries = &mut entries[..head(data, at, 6).min(128)];
    let entry_values = &mut entry_values[..head(data, at, 7).min(128)];
    let plain = &mut plain[..head(data, at, 8).min(128)];
    let sources = &mut sources[..head(data, at, 9).min(128)];
    let source_values = &mut source_values[..head(data, at, 10).min(128)];
    let found = dogma_calculate(
        &mut states,
        collected,
        collected_values,
        rows,
        bases,
        values,
        entries,
        entry_values,
        plain,
        sources,
        source_values,
        sheet,
    );
    let lists = Lists {
        states: &states,
        collected,
        collected_values,
        rows,
        bases,
        values,
        entries,
        entry_values,
        plain,
        sources,
        source_values,
    };
    see_all(lists, data, at, found)
}

// ---- all of them

// The place of the next case, how many sheets there were, how many of them differ, and the numbers compared.
#[derive(Clone, Copy, Default)]
struct Tally {
    at: usize,
    sheets: u64,
    differ: u64,
    compared: u64,
}

// One case more; where it differs, says which sheet it is.
fn next(rt: &HostRuntime, data: &[u8], tally: Tally) -> Tally {
    let Tally { at, sheets, .. } = tally;
    let seen = replayed(data, at);
    let differs = 0 < seen.differ || data.len() < seen.at;
    if differs {
        let _ = println!(rt; "sheet {sheets} differs");
    }
    Tally {
        at: seen.at,
        sheets: sheets.wrapping_add(1),
        differ: tally.differ.wrapping_add(u64::from(differs)),
        compared: tally.compared.wrapping_add(seen.compared),
    }
}

// Takes one case after the other. There are fewer than the turns.
fn run(rt: &HostRuntime, data: &[u8]) -> Tally {
    let mut tally = Tally::default();
    for _ in 0..u32::MAX {
        if data.len() <= tally.at {
            break;
        }
        tally = next(rt, data, tally);
    }
    tally
}

// Zeros by a call: where a literal of this length is lent, the check would compute every element.
fn blank() -> [u8; 524288] {
    [0u8; 524288]
}

fn main(rt: HostRuntime) {
    let mut data = blank();
    let n = fill(&mut data, &mut rt.reader());
    let tally = run(&rt, &data[..n]);
    let Tally {
        sheets,
        differ,
        compared,
        ..
    } = tally;
    let _ = println!(rt; "{sheets} sheets, {compared} numbers compared, {differ} sheets differ");
}
