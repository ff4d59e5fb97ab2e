// A run's rows as comma-separated text by RFC 4180, with lent labels for the attributes.
#![tactic(auto)]

ghost use Rattle.std.specs.Prelude.{◌≡◌, ◌≤◌, length, get_or, IfErr};
ghost use Rattle.std.proofs.Math.Option.{none};
ghost use Rattle.rules.specs.Answer.{Res, ok};
ghost use Rattle.rules.specs.Bytes as B;
ghost use Rattle.rules.specs.Outcome.{Done};
ghost use Rattle.listing.specs.Pieces.{Shown, Tells};
ghost use Rattle.csv_text.specs.declared.ExportRefusal.TheVariants.{Label};
ghost use Rattle.csv_text.specs.Csv.{record_text, csv};
ghost use Rattle.csv_text.specs.Labels.{label_bad, labels_of, fields_of, records, export_of};
ghost use Rattle.csv_text.specs.Puts.{AddedOr, BeginsOr, Puts, Gives, IsRefused, number_in, place_in, told_of};

use clear::zero_from;
use columns::{ATTRIBUTE_SLOTS, AttributePlaces, AttributeRow, ROW_ATTRIBUTE, ROW_OBJECT};
use fields::put_record;
use labels::{BadLabel, LabelRow, check_labels, label_at, tell};
use listing::put_text;
use numbers::integers::signed;

// Room for the longest record: 10 + 11 + 130 + 16 bytes, three commas, CR and LF.
const LINE_BYTES: usize = 172;

// The header record.
const HEADER_BYTES: usize = 30;

// The numbers of the refusals, as C has them, and the place of a text that is longer than the bytes lent: list 8.
const LABEL: u64 = 16;

const ROOM: u64 = 7;

const TEXT: u64 = 8;

// Why there is no text: the engine's refusal by its number and place, the first bad label, or more text than bytes lent.
#[derive(Clone, Copy, Debug, PartialEq, Eq)]
pub enum ExportRefusal {
    Engine { number: u64, place: u64 },
    Label(usize),
    Full,
}

impl From<BadLabel> for ExportRefusal {
    ghost from_gives = { λ b e. e ≡ Label b.label };

    fn from(bad: BadLabel) -> ExportRefusal {
        ExportRefusal::Label(bad.label)
    }
}

impl ExportRefusal {
    // The number that document 01 has for it.
    pub fn number(self) -> u64
        ensures defined { result ≡ number_in self }
    {
        match self {
            ExportRefusal::Engine { number, .. } => number,
            ExportRefusal::Label(_) => LABEL,
            ExportRefusal::Full => ROOM,
        }
    }

    // And its place.
    pub fn place(self) -> u64
        ensures defined { result ≡ place_in self }
    {
        match self {
            ExportRefusal::Engine { place, .. } => place,
            ExportRefusal::Label(label) => label as u64,
            ExportRefusal::Full => TEXT,
        }
    }
}

// Bytes at a place of a text, where they fit.
fn put_fitting(text: &mut [u8], at: usize, bytes: &[u8]) -> Option<usize>
    requires inside { at ≤ length text.old }
    ensures added { AddedOr result text.old text.new at bytes.now }
{
    if text.len() - at < bytes.len() {
        return None;
    }
    Some(put_text(text, at, bytes))
}

// The record of a row at a place of a text, where it fits; a line is lent to lay it out.
fn put_row(
    text: &mut [u8],
    line: &mut [u8],
    at: usize,
    row: AttributeRow,
    value: f64,
    labels: &[LabelRow],
    places: &AttributePlaces,
    label_bytes: &[u8],
) -> Option<usize>
    requires inside { at ≤ length text.old }
    requires line { 172 ≤ length line.old }
    requires good { label_bad label_bytes.now labels.now ≡ none }
    ensures added { let ls = labels_of label_bytes.now labels.now in
        let fields = fields_of ls (get_or row 0 0) (B.signed (get_or row 1 0)) value in
        AddedOr result text.old text.new at (record_text fields) }
{
    let id = signed(row[ROW_ATTRIBUTE]);
    let label = label_at(labels, places, label_bytes, id);
    let long = put_record(line, row[ROW_OBJECT], id, label, value);
    put_fitting(text, at, &line[..long])
}

// The header and the records of n rows, where they fit.
fn put_records(
    text: &mut [u8],
    rows: &[AttributeRow],
    values: &[f64],
    n: usize,
    labels: &[LabelRow],
    label_bytes: &[u8],
) -> Option<usize>
    requires counted { (n ≤ length rows.now) × (n ≤ length values.now) }
    requires good { label_bad label_bytes.now labels.now ≡ none }
    ensures the_records { let ls = labels_of label_bytes.now labels.now in
        ((d : Done) → Shown d n rows.now values.now
        → BeginsOr result text.new (csv (records ls d))) }
{
    if text.len() < HEADER_BYTES {
        return None;
    }
    let mut places = [0u16; ATTRIBUTE_SLOTS];
    tell(&mut places, labels);
    let mut line = [0u8; LINE_BYTES];
    let mut end = put_text(text, 0, b"object,attribute,label,value\r\n");
    for next in 0..n {
        let row = rows[next];
        let value = values[next];
        end = put_row(
            text,
            &mut line,
            end,
            row,
            value,
            labels,
            &places,
            label_bytes,
        )?;
    }
    Some(end)
}

// The text of a run's rows; or why there is none, and then the bytes are anything. Number 0 is n rows, another the engine's refusal.
fn put_export(
    text: &mut [u8],
    rows: &[AttributeRow],
    values: &[f64],
    n: usize,
    number: u64,
    place: u64,
    labels: &[LabelRow],
    label_bytes: &[u8],
) -> Result<usize, ExportRefusal>
    requires counted { (n ≤ length rows.now) × (n ≤ length values.now) }
    ensures defined { (o : Res Done) → Tells o number place n rows.now values.now
        → Puts result text (export_of o labels.now label_bytes.now) }
    ensures refused { (o : Res Done) → Tells o number place n rows.now values.now → IfErr result IsRefused }
{
    if number != 0 {
        return Err(ExportRefusal::Engine { number, place });
    }
    check_labels(labels, label_bytes)?;
    put_records(text, rows, values, n, labels, label_bytes).ok_or(ExportRefusal::Full)
}

// The text of what came back of a run, and zeros behind it; or the refusal, and then all is zero: number 0 is n rows, another the
// engine's refusal.
pub fn export_text(
    text: &mut [u8],
    rows: &[AttributeRow],
    values: &[f64],
    n: usize,
    number: u64,
    place: u64,
    labels: &[LabelRow],
    label_bytes: &[u8],
) -> Result<usize, ExportRefusal>
    requires counted { (n ≤ length rows.now) × (n ≤ length values.now) }
    ensures defined { (o : Res Done) → Tells o number place n rows.now values.now
        → Gives text (told_of result) (export_of o labels.now label_bytes.now) }
    ensures refused { (o : Res Done) → Tells o number place n rows.now values.now → IfErr result IsRefused }
{
    let made = put_export(text, rows, values, n, number, place, labels, label_bytes);
    zero_from(text, 0, made.unwrap_or(0));
    made
}

pub mod fields;
pub mod labels;
