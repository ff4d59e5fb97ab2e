// The engine's entry: the bytes of a sheet and lent lists go in, every list, every state and the answer come out (calculate.rs).
#![tactic(auto)]

ghost use Rattle.std.specs.Prelude.{◌≡◌, ◌≤◌, length};
ghost use Rattle.rules.specs.Bytes.{pairs_of};
ghost use Rattle.rules.specs.Sheet.{book_of, fit_of};
ghost use Rattle.rules.specs.Outcome.{rooms_of};
ghost use Rattle.promises.specs.Result.{MeetsFor, Meets};
ghost use Rattle.shape.specs.Shaped.{SoundBy};
ghost use Rattle.run.specs.Filled.{lent_columns, lent_of, decided};
ghost use Rattle.calculate.specs.Given.{counts_given, answer_from, answer_given, result_of};

use answers::{number_of, place_of};
use clear::{KeptCounts, clear};
use columns::{
    AttributeRow, CollectedRow, EntryRow, PlainRow, SourceFloats, SourceRow, States, TablePairs,
};
use info::header::pairs_of;
use rules::Refusal;
use run::outcome::filled;
use shape::{BadTable, shape};

// What comes back of a call: 01's number and place, and how many rows each list has.
#[repr(C)]
#[derive(Clone, Copy)]
pub struct Outcome {
    pub number: u64,
    pub place: u64,
    pub collected: u64,
    pub rows: u64,
    pub entries: u64,
    pub plain: u64,
    pub sources: u64,
}

// The counts to keep: none after a refusal.
fn counts_of(ran: Result<KeptCounts, Refusal>) -> KeptCounts
    ensures defined { result ≡ counts_given ran }
{
    match ran {
        Ok(n) => n,
        Err(_) => KeptCounts {
            objects: 0,
            collected: 0,
            rows: 0,
            entries: 0,
            plain: 0,
            sources: 0,
        },
    }
}

// The answer without its counts.
fn answer_of(ran: Result<KeptCounts, Refusal>) -> Result<(), Refusal>
    ensures defined { answer_from result ≡ answer_given ran }
{
    match ran {
        Ok(_) => Ok(()),
        Err(y) => Err(y),
    }
}

// The pairs of a sheet; zeros of bytes that are too short for a header.
fn pairs_lent(sheet: &[u8]) -> TablePairs
    ensures defined { 100 ≤ length sheet.now → result ≡ pairs_of sheet.now }
{
    if sheet.len() < 100 {
        return [[0; 2]; 10];
    }
    pairs_of(sheet)
}

// Every list, every state and the answer of a book and a fit that are judged: one run, and all that it leaves unused made zero.
pub fn calculated(
    states: &mut States,
    collected: &mut [CollectedRow],
    collected_values: &mut [f64],
    rows: &mut [AttributeRow],
    bases: &mut [f64],
    values: &mut [f64],
    entries: &mut [EntryRow],
    entry_values: &mut [f64],
    plain: &mut [PlainRow],
    sources: &mut [SourceRow],
    source_values: &mut [SourceFloats],
    book: &[u8],
    fit: &[u8],
    pairs: &TablePairs,
    verdict: Result<(), BadTable>,
) -> Outcome
    requires sound { SoundBy verdict book.now fit.now pairs.now }
    ensures defined { let lists = lent_columns collected collected_values rows bases values entries entry_values plain sources source_values in
        let lent = lent_of lists.entry in
        let ps = pairs.now in
        let o = decided verdict (book_of book.now ps) (fit_of fit.now ps) (rooms_of lent) in
        MeetsFor o lent (result_of result states.new lists.exit) }
{
    let ran = filled(
        states,
        collected,
        collected_values,
        rows,
        bases,
        values,
        entries,
        entry_values,
        plain,
        sources,
        source_values,
        book,
        fit,
        pairs,
        verdict,
    );
    let counts = counts_of(ran);
    let answer = answer_of(ran);
    clear(
        states,
        collected,
        collected_values,
        rows,
        bases,
        values,
        entries,
        entry_values,
        plain,
        sources,
        source_values,
        counts,
    );
    Outcome {
        number: number_of(answer) as u64,
        place: place_of(answer) as u64,
        collected: counts.collected as u64,
        rows: counts.rows as u64,
        entries: counts.entries as u64,
        plain: counts.plain as u64,
        sources: counts.sources as u64,
    }
}

// Every list, every state and the answer, whatever the bytes and whatever the lists: nothing is required.
pub fn dogma_calculate(
    states: &mut States,
    collected: &mut [CollectedRow],
    collected_values: &mut [f64],
    rows: &mut [AttributeRow],
    bases: &mut [f64],
    values: &mut [f64],
    entries: &mut [EntryRow],
    entry_values: &mut [f64],
    plain: &mut [PlainRow],
    sources: &mut [SourceRow],
    source_values: &mut [SourceFloats],
    sheet: &[u8],
) -> Outcome
    ensures the_definitions_answer { let lists = lent_columns collected collected_values rows bases values entries entry_values plain sources source_values in
        Meets sheet.now (lent_of lists.entry) (result_of result states.new lists.exit) }
{
    let verdict = shape(sheet);
    let pairs = pairs_lent(sheet);
    calculated(
        states,
        collected,
        collected_values,
        rows,
        bases,
        values,
        entries,
        entry_values,
        plain,
        sources,
        source_values,
        sheet,
        sheet,
        &pairs,
        verdict,
    )
}

pub mod answers;
