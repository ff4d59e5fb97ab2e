// The exported function of a spreadsheet: one run, and its rows as comma-separated text with lent labels.
#![tactic(auto)]

ghost use Rattle.std.specs.Prelude.{◌≡◌, is_ok};
ghost use Rattle.csv_text.specs.Puts.{told_of};
ghost use Rattle.run.specs.Filled.{lent_columns, lent_of};
ghost use Rattle.spreadsheet.specs.Exports.{Exports, exported_of, result_of};

use calculate::{Outcome, dogma_calculate};
use columns::{AttributeRow, CollectedRow, EntryRow, PlainRow, SourceFloats, SourceRow, States};
use csv_text::labels::LabelRow;
use csv_text::{ExportRefusal, export_text};
use kept::kept_if;

// What comes back of a call: 01's number and place, how many rows each list has, and how many bytes the text.
#[repr(C)]
#[derive(Clone, Copy)]
pub struct Exported {
    pub number: u64,
    pub place: u64,
    pub collected: u64,
    pub rows: u64,
    pub entries: u64,
    pub plain: u64,
    pub sources: u64,
    pub length: u64,
}

// The answer: no counts after a refusal.
fn exported_of(made: Outcome, told: Result<usize, ExportRefusal>) -> Exported
    ensures defined { result ≡ exported_of made (told_of told) (is_ok told) }
{
    match told {
        Ok(length) => Exported {
            number: 0,
            place: 0,
            collected: made.collected,
            rows: made.rows,
            entries: made.entries,
            plain: made.plain,
            sources: made.sources,
            length: length as u64,
        },
        Err(refusal) => Exported {
            number: refusal.number(),
            place: refusal.place(),
            collected: 0,
            rows: 0,
            entries: 0,
            plain: 0,
            sources: 0,
            length: 0,
        },
    }
}

// The text, every list, every state and the answer, whatever the bytes, the labels and the lists: nothing is required.
pub fn dogma_export(
    text: &mut [u8],
    states: &mut States,
    collected: &mut [CollectedRow],
    collected_values: &mut [f64],
    rows: &mut [AttributeRow],
    bases: &mut [f64],
    values: &mut [f64],
    entries: &mut [EntryRow],
    entry_values: &mut [f64],
    plain: &mut [PlainRow],
    sources: &mut [SourceRow],
    source_values: &mut [SourceFloats],
    labels: &[LabelRow],
    label_bytes: &[u8],
    sheet: &[u8],
) -> Exported
    ensures the_definitions_export { let lists = lent_columns collected collected_values rows bases values entries entry_values plain sources source_values in
        let given = result_of result states.new lists.exit in
        Exports sheet.now (lent_of lists.entry) labels.now label_bytes.now text result.length given }
{
    let made = dogma_calculate(
        states,
        collected,
        collected_values,
        rows,
        bases,
        values,
        entries,
        entry_values,
        plain,
        sources,
        source_values,
        sheet,
    );
    let told = export_text(
        text,
        rows,
        values,
        made.rows as usize,
        made.number,
        made.place,
        labels,
        label_bytes,
    );
    let keep = told.is_ok();
    kept_if(
        states,
        collected,
        collected_values,
        rows,
        bases,
        values,
        entries,
        entry_values,
        plain,
        sources,
        source_values,
        keep,
    );
    exported_of(made, told)
}
