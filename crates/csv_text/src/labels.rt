// Lent labels: the first bad one, and the one of an attribute.
ghost use Rattle.std.specs.Prelude.{◌≡◌, true, [], ◌+◌, ◌≤◌, ◌<◌, length, get_or};
ghost use Rattle.std.proofs.Math.Option.{none};
ghost use Rattle.laws.specs.Lists.{every?};
ghost use Rattle.csv_text.specs.Labels as rule;
ghost use Rattle.csv_text.specs.Labels.{id_of, first_of, count_of, label_bad, labels_of, label_of};
ghost use Rattle.csv_text.specs.Puts.{bad_label, id_before};
ghost use Rattle.csv_text.specs.Sought.{FirstNotBelow};

use columns::AttributePlaces;
use info::little_endian::index;
use info::places::{attribute_slot, place_of};
use numbers::integers::signed;

// A label: its attribute's id, and the first and the count of its bytes among those lent.
pub const LABEL_WIDTH: usize = 3;

pub type LabelRow = [u32; LABEL_WIDTH];

pub const LABEL_ID: usize = 0;

pub const LABEL_FIRST: usize = 1;

pub const LABEL_COUNT: usize = 2;

// The most bytes of a label.
const LABEL_MOST: usize = 64;

// The first bad label of a table.
#[derive(Clone, Copy, Debug, PartialEq, Eq)]
pub struct BadLabel {
    pub label: usize,
}

// Whether a label may have this byte: printable ASCII, CR or LF.
fn is_allowed(b: u8) -> bool
    ensures defined { result ≡ rule.allowed b }
{
    ((32 <= b) & (b <= 126)) | ((b == 13) | (b == 10))
}

// Whether it may have all of these.
fn all_allowed(text: &[u8]) -> bool
    ensures defined { result ≡ every? rule.allowed text.now }
{
    let mut good = true;
    for b in text {
        good &= is_allowed(*b);
    }
    good
}

// Whether a label is good by itself: at most 64 bytes, inside those lent, each one allowed. Where all lent bytes are, none is looked at.
fn label_good(label: LabelRow, bytes: &[u8], clean: bool) -> bool
    requires told { clean ≡ true → every? rule.allowed bytes.now ≡ true }
    ensures defined { result ≡ rule.label_good bytes.now label }
{
    let first = index(label[LABEL_FIRST]);
    let count = index(label[LABEL_COUNT]);
    if LABEL_MOST < count {
        return false;
    }
    let end = first + count;
    if bytes.len() < end {
        return false;
    }
    if clean {
        return true;
    }
    all_allowed(&bytes[first..end])
}

// Whether label i comes strictly after the one before it.
fn stands(labels: &[LabelRow], i: usize) -> bool
    requires inside { i < length labels.now }
    ensures defined { let rows = labels.now in
        result ≡ rule.stands_after (id_before rows i) (id_of (get_or rows i [])) }
{
    if i == 0 {
        return true;
    }
    let before = signed(labels[i - 1][LABEL_ID]);
    let own = signed(labels[i][LABEL_ID]);
    before < own
}

// Whether all labels are good; or the first that is bad.
pub fn check_labels(labels: &[LabelRow], bytes: &[u8]) -> Result<(), BadLabel>
    ensures defined { bad_label result ≡ label_bad bytes.now labels.now }
{
    let clean = all_allowed(bytes);
    for i in 0..labels.len() {
        let after = stands(labels, i);
        let good = after & label_good(labels[i], bytes, clean);
        if !good {
            return Err(BadLabel { label: i });
        }
    }
    Ok(())
}

// The first label whose id is not below the one sought.
fn lower(labels: &[LabelRow], id: i32) -> usize
    ensures inside { result ≤ length labels.now }
    ensures defined { FirstNotBelow labels.now id result }
{
    labels.partition_point(|label| signed(label[LABEL_ID]) < id)
}

// A label's bytes.
fn bytes_of(label: LabelRow, bytes: &[u8]) -> &[u8]
    requires inside { first_of label + count_of label ≤ length bytes.now }
    ensures span { result.now ≡ rule.bytes_of bytes.now label }
{
    let first = index(label[LABEL_FIRST]);
    let end = first + index(label[LABEL_COUNT]);
    &bytes[first..end]
}

// An attribute's label; empty where it has none.
pub fn label_of<'a>(labels: &[LabelRow], bytes: &'a [u8], id: i32) -> &'a [u8]
    requires good { label_bad bytes.now labels.now ≡ none }
    ensures the_label { result.now ≡ label_of (labels_of bytes.now labels.now) id }
    ensures short { length result.now ≤ 64 }
{
    let at = lower(labels, id);
    if at < labels.len() {
        let label = labels[at];
        let own = signed(label[LABEL_ID]);
        if own == id {
            return bytes_of(label, bytes);
        }
    }
    &[]
}

// The places of labels by their ids, told to the look-ups: of no promise.
pub fn tell(places: &mut AttributePlaces, labels: &[LabelRow]) {
    for (i, label) in labels.iter().enumerate() {
        places[attribute_slot(signed(label[LABEL_ID]))] = (i % 65536) as u16;
    }
}

// The same as `label_of`: the place that was told is tried first, and tested.
pub fn label_at<'a>(
    labels: &[LabelRow],
    places: &AttributePlaces,
    bytes: &'a [u8],
    id: i32,
) -> &'a [u8]
    requires good { label_bad bytes.now labels.now ≡ none }
    ensures the_label { result.now ≡ label_of (labels_of bytes.now labels.now) id }
    ensures short { length result.now ≤ 64 }
{
    let told = place_of(places[attribute_slot(id)]);
    if told < labels.len() {
        let label = labels[told];
        let own = signed(label[LABEL_ID]);
        if own == id {
            return bytes_of(label, bytes);
        }
    }
    label_of(labels, bytes, id)
}
