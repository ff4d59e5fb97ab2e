// Texts of lines, read into rows: labels (`id label`), and another planner's listing (object, attribute, 16 hexadecimal digits).
#![tactic(auto)]

ghost use Rattle.std.specs.Prelude.{◌≡◌, ◌==◌, ◌+◌, ◌≤◌, length};
ghost use Rattle.std.specs.List.{position};
ghost use Rattle.laws.specs.Options.{option_of};
ghost use Rattle.lines.specs.Lines as rule;
ghost use Rattle.lines.specs.Lines.{Reader, label_in, figure_in, rows_from, label_lines, figure_lines};
ghost use Rattle.lines.specs.Reads.{rows_of, ReadWithin};

use fields::{Field, half, id, object};

// A label as it is lent: its id, where its bytes begin in the text, and how many they are.
pub type LabelRow = [u32; 3];

// A line of a listing as it is lent: object, attribute, the low and the high half of the value's bits.
pub type FigureRow = [u32; 4];

// The first line that is none, from 1.
#[derive(Clone, Copy, Debug, PartialEq, Eq)]
pub struct BadLine {
    pub line: usize,
}

// How a line is read into a row.
trait Line<const WIDTH: usize> {
    ghost reader: { Reader };

    // A line at a place of its text.
    fn row(line: &[u8], at: usize) -> Option<[u32; WIDTH]>
        requires short { at + length line.now ≤ 4294967295 }
        ensures defined { option_of result ≡ reader at line.now };
}

// A line of labels: its id, and the rest of it where it stands.
struct Label;

impl Line<3> for Label {
    ghost reader = { label_in };

    fn row(line: &[u8], at: usize) -> Option<LabelRow> {
        let Field { value, next } = id(line, 0)?;
        Some([value, (at + next) as u32, (line.len() - next) as u32])
    }
}

// A line of a listing, alike wherever it stands.
struct Figure;

impl Line<4> for Figure {
    ghost reader = { figure_in };

    fn row(line: &[u8], _at: usize) -> Option<FigureRow> {
        let o = object(line, 0)?;
        let a = id(line, o.next)?;
        let high = half(line, a.next)?;
        let low = half(line, high.next)?;
        if low.next != line.len() {
            return None;
        }
        Some([o.value, a.value, low.value, high.value])
    }
}

// Where the first line feed is.
fn line_feed(text: &[u8]) -> Option<usize>
    ensures mirrored { result ≡ position (λ b. b == 10) text.now }
{
    text.iter().position(|b| *b == b'\n')
}

// How many bytes stand before the first line feed.
fn line_length(text: &[u8]) -> usize
    ensures defined { result ≡ rule.line_length text.now }
    ensures inside { result ≤ length text.now }
{
    line_feed(text).unwrap_or(text.len())
}

// A line without a carriage return at its end.
fn without_return(line: &[u8]) -> &[u8]
    ensures defined { result.now ≡ rule.without_return line.now }
    ensures inside { length result.now ≤ length line.now }
{
    line.strip_suffix(b"\r").unwrap_or(line)
}

// The rows of a text's lines; or the first line that is none.
fn rows<const WIDTH: usize, L: Line<WIDTH>>(
    out: &mut [[u32; WIDTH]],
    text: &[u8],
) -> Result<usize, BadLine>
    requires short { length text.now ≤ 4294967295 }
    ensures defined { rows_of result out.new ≡ rows_from L.reader (length out.old) 1 0 text.now }
    ensures within { ReadWithin result (length out.new) }
{
    let mut at = 0;
    let mut count = 0;
    // no `for`: how far a turn leads the text says
    while at < text.len() {
        let bad = BadLine { line: count + 1 };
        if out.len() <= count {
            return Err(bad);
        }
        let end = at + line_length(&text[at..]);
        let line = without_return(&text[at..end]);
        out[count] = L::row(line, at).ok_or(bad)?;
        count += 1;
        at = end + 1;
    }
    Ok(count)
}

// The labels of a text, each where it stands in it; or the first line that is none.
pub fn label_rows(out: &mut [LabelRow], text: &[u8]) -> Result<usize, BadLine>
    requires short { length text.now ≤ 4294967295 }
    ensures defined { rows_of result out.new ≡ label_lines (length out.old) text.now }
    ensures within { ReadWithin result (length out.new) }
{
    rows::<3, Label>(out, text)
}

// The lines of a listing; or the first that is none.
pub fn figure_rows(out: &mut [FigureRow], text: &[u8]) -> Result<usize, BadLine>
    requires short { length text.now ≤ 4294967295 }
    ensures defined { rows_of result out.new ≡ figure_lines (length out.old) text.now }
    ensures within { ReadWithin result (length out.new) }
{
    rows::<4, Figure>(out, text)
}

pub mod fields;
