// The program: `export SHEET LABELS` writes the sheet's rows as comma-separated text to standard output.
#![tactic(auto)]

ghost use Rattle.std.specs.Prelude.{◌≤◌, length};

use exports::{TEXT_BYTES, export_text};
use program::{arg_count, complain, read_file, say};
use said::RefusalLine;

// The longest text of labels that is read: 4,096 lines of 80 bytes.
const LABELS_BYTES: usize = 327680;

// Writes what is said of a sheet and a text of labels.
fn say_export(rt: &HostRuntime, sheet: &[u8], labels: &[u8])
    requires short { length labels.now ≤ 327680 }
{
    let mut text = [0u8; TEXT_BYTES];
    match export_text(&mut text, sheet, labels) {
        Ok(end) => say(rt, &rt.stderr(), &text[..end]),
        Err(RefusalLine { end }) => complain(&rt.stderr(), &text[..end]),
    }
}

// The labels read, and then the export.
fn with_labels(rt: &HostRuntime, sheet: &[u8]) {
    let mut labels = [0u8; LABELS_BYTES];
    let too_long = b"export: the labels have more than 327,680 bytes\n";
    let Some(n) = read_file(&mut labels, rt, &rt.stderr(), 2, too_long) else {
        return;
    };
    say_export(rt, sheet, &labels[..n]);
}

fn main(rt: HostRuntime) {
    if arg_count(&rt) != 3 {
        complain(&rt.stderr(), b"usage: export SHEET LABELS\n");
        return;
    }
    let mut sheet = [0u8; 65536];
    let too_long = b"export: the sheet has more than 65,536 bytes\n";
    let Some(n) = read_file(&mut sheet, &rt, &rt.stderr(), 1, too_long) else {
        return;
    };
    with_labels(&rt, &sheet[..n]);
}
