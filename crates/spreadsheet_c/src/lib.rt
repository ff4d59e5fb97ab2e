// The exported functions of `spreadsheet`: a run and its rows as comma-separated text.
#![tactic(auto)]

ghost use Rattle.run.specs.Filled.{lent_columns, lent_of};
ghost use Rattle.spreadsheet.specs.Exports.{Exports, result_of};

use columns::{AttributeRow, CollectedRow, EntryRow, PlainRow, SourceFloats, SourceRow, States};
use csv_text::labels::LabelRow;
use spreadsheet::Exported;

// The text, every list, every state and the answer, whatever the bytes, the labels and the lists: nothing is required.
#[unsafe(no_mangle)]
pub extern "C" fn dogma_export(
    text: &mut [u8],
    states: &mut States,
    collected: &mut [CollectedRow],
    collected_values: &mut [f64],
    rows: &mut [AttributeRow],
    bases: &mut [f64],
    values: &mut [f64],
    entries: &mut [EntryRow],
    entry_values: &mut [f64],
    plain: &mut [PlainRow],
    sources: &mut [SourceRow],
    source_values: &mut [SourceFloats],
    labels: &[LabelRow],
    label_bytes: &[u8],
    sheet: &[u8],
) -> Exported
    ensures the_definitions_export { let lists = lent_columns collected collected_values rows bases values entries entry_values plain sources source_values in
        let given = result_of result states.new lists.exit in
        Exports sheet.now (lent_of lists.entry) labels.now label_bytes.now text result.length given }
{
    spreadsheet::dogma_export(
        text,
        states,
        collected,
        collected_values,
        rows,
        bases,
        values,
        entries,
        entry_values,
        plain,
        sources,
        source_values,
        labels,
        label_bytes,
        sheet,
    )
}
