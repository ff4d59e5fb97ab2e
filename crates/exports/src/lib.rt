// The program `export`, from the bytes of a sheet and of a text of labels to the bytes to be written.
#![tactic(auto)]

ghost use Rattle.std.specs.Prelude.{◌≡◌, ◌≤◌, length, IfErr};
ghost use Rattle.rules.specs.Outcome.{outcome};
ghost use Rattle.csv_text.specs.Labels.{export_of};
ghost use Rattle.csv_text.specs.Puts.{Gives, IsRefused, told_of};
ghost use Rattle.said.specs.Said.{says_of, SaidWithin};
ghost use Rattle.text.specs.SheetText.{rooms};
ghost use Rattle.exports.specs.ExportText.{export_says, export_text};

use columns::ROW_WIDTH;
use csv_text::ExportRefusal;
use csv_text::labels::{LABEL_WIDTH, LabelRow};
use lines::{BadLine, label_rows};
use listing::refusal;
use said::{RefusalLine, bad_line};
use text::{ROWS, calculated};

// The most labels.
const LABELS: usize = 4096;

// Room for the longest text: the header, and a record of 172 bytes for each row.
pub const TEXT_BYTES: usize = 704542;

// The text of what comes back of a run with room for 4,096 in every list; or why there is none.
fn exported_text(
    text: &mut [u8; TEXT_BYTES],
    sheet: &[u8],
    labels: &[LabelRow],
    label_bytes: &[u8],
) -> Result<usize, ExportRefusal>
    ensures the_export { Gives text (told_of result) (export_of (outcome sheet.now rooms) labels.now label_bytes.now) }
    ensures refused { IfErr result IsRefused }
{
    let mut rows = [[0u32; ROW_WIDTH]; ROWS];
    let mut values = [0.0; ROWS];
    let answer = calculated(&mut rows, &mut values, sheet);
    csv_text::export_text(
        text,
        &rows,
        &values,
        answer.rows as usize,
        answer.number,
        answer.place,
        labels,
        label_bytes,
    )
}

// What is said of an export: its text, which stands there, or the line of its refusal.
fn said_export(
    text: &mut [u8; TEXT_BYTES],
    sheet: &[u8],
    labels: &[LabelRow],
    label_bytes: &[u8],
) -> Result<usize, RefusalLine>
    requires few { length labels.now ≤ 4096 }
    ensures says { let o = outcome sheet.now rooms in
        says_of result text.new ≡ export_says (export_of o labels.now label_bytes.now (length text.old)) }
    ensures inside { SaidWithin result (length text.new) }
{
    match exported_text(text, sheet, labels, label_bytes) {
        Ok(end) => Ok(end),
        Err(why) => Err(match why {
            ExportRefusal::Label(label) => bad_line(
                text,
                b"labels, line ",
                (label + 1) as u32,
                b": over 64 bytes, a byte that is not printable, or an id that does not ascend\n",
            ),
            _ => RefusalLine {
                end: refusal(text, why.number(), why.place()),
            },
        }),
    }
}

// What the program says, at the front of a lent text.
pub fn export_text(
    text: &mut [u8; TEXT_BYTES],
    sheet: &[u8],
    labels: &[u8],
) -> Result<usize, RefusalLine>
    requires short { length labels.now ≤ 4294967295 }
    ensures says { says_of result text.new ≡ export_text (length text.old) sheet.now labels.now }
    ensures inside { SaidWithin result (length text.new) }
{
    let mut rows = [[0u32; LABEL_WIDTH]; LABELS];
    match label_rows(&mut rows, labels) {
        Ok(n) => said_export(text, sheet, &rows[..n], labels),
        Err(BadLine { line }) => Err(bad_line(
            text,
            b"labels, line ",
            line as u32,
            b": not an id, a space and a label\n",
        )),
    }
}
