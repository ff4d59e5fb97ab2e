// What a row needs, a slot at a time: of each entry its source and its resistance, then min and max. A slot may be empty.
#![tactic(auto)]

ghost use Rattle.std.specs.Prelude.{◌≡◌, true, List, [], ℕ, ◌+◌, ◌*◌, ◌%◌, ◌<◌, length, get_or};
ghost use Rattle.laws.specs.Options.{option_of};
ghost use Rattle.std.proofs.Math.Option.{none};
ghost use Rattle.rules.specs.Dispatch.{Row};
ghost use Rattle.rules.specs.declared.Effect.{Effect};
ghost use Rattle.reading.specs.Held.{RowsHeld, no_row};
ghost use Rattle.reading.specs.Stretched.{Stretched};
ghost use Rattle.needs.specs.Slots.{source_slot, resistance_slot, limit_slot, limit_slots, row_in, need_at};
ghost use Rattle.needs.specs.Telling.{tables_of, EntryShown, KnowsNeeds};

use columns::{
    AttributeRow, ENTRY_MODIFYING_ATTRIBUTE, ENTRY_ORIGIN, ENTRY_RESISTANCE,
    ENTRY_RESISTANCE_GIVEN, ENTRY_SOURCE, EntryRow, Limits, ROW_ATTRIBUTE, ROW_ENTRY_COUNT,
    ROW_FIRST_ENTRY, ROW_OBJECT, Stretches, TablePairs,
};
use info::little_endian::index;
use info::look_ups::get_dogma_attribute;
use numbers::integers::signed;
use reading::stretches::{find, is_bare, is_limited};

// What needs are read off: the book, lists 2 and 3, where each object's rows are, and which attributes may have a limit.
#[derive(Clone, Copy)]
pub struct NeedColumns<'a> {
    pub book: &'a [u8],
    pub pairs: &'a TablePairs,
    pub stretches: &'a Stretches,
    pub limits: &'a Limits,
    pub rows: &'a [AttributeRow],
    pub entries: &'a [EntryRow],
}

// The row of an entry's source, whether the entry runs or not.
fn source_need(rows: &[AttributeRow], stretches: &Stretches, entry: EntryRow) -> Option<usize>
    requires an_object { get_or entry 2 0 < 1024 }
    ensures defined { (rs : List Row) (e : Effect) → RowsHeld rs rows.now → Stretched rs stretches.now
        → EntryShown e entry → option_of result ≡ row_in rs (source_slot e.origin) }
{
    if entry[ENTRY_ORIGIN] == 0 {
        let id = signed(entry[ENTRY_MODIFYING_ATTRIBUTE]);
        return find(rows, stretches, entry[ENTRY_SOURCE], id);
    }
    None
}

// The row of an entry's resistance, which is the ship's.
fn resistance_need(rows: &[AttributeRow], stretches: &Stretches, entry: EntryRow) -> Option<usize>
    ensures defined { (rs : List Row) (e : Effect) → RowsHeld rs rows.now → Stretched rs stretches.now
        → EntryShown e entry → option_of result ≡ row_in rs (resistance_slot e.resistance e.origin) }
{
    if entry[ENTRY_ORIGIN] != 0 {
        return None;
    }
    if entry[ENTRY_RESISTANCE_GIVEN] == 1 {
        let id = signed(entry[ENTRY_RESISTANCE]);
        return find(rows, stretches, 0, id);
    }
    None
}

// The row of a limit, which is of the same object; 0 means none.
fn limit_need(
    rows: &[AttributeRow],
    stretches: &Stretches,
    object: u32,
    limit: i32,
) -> Option<usize>
    requires an_object { object < 1024 }
    ensures defined { (rs : List Row) → RowsHeld rs rows.now → Stretched rs stretches.now
        → option_of result ≡ row_in rs (limit_slot object limit) }
{
    if limit == 0 {
        return None;
    }
    find(rows, stretches, object, limit)
}

impl NeedColumns<'_> {
    // The row of the least or the most that a row's attribute may be; its record is looked up where it may have a limit.
    fn held_need(&self, row: usize, odd: usize) -> Option<usize>
        requires holding { KnowsNeeds (tables_of self.now) }
        requires within { (row < length self.now.rows.now) × (odd < 2) }
        ensures defined { (h : KnowsNeeds (tables_of self.now))
            → option_of result ≡ row_in h.world.rows (get_or (limit_slots h.world.book (get_or h.world.rows row no_row)) odd none) }
    {
        let id = signed(self.rows[row][ROW_ATTRIBUTE]);
        if !is_limited(self.limits, id) {
            return None;
        }
        let object = self.rows[row][ROW_OBJECT];
        let record = get_dogma_attribute(self.book, self.pairs, id);
        if odd == 0 {
            return limit_need(self.rows, self.stretches, object, record.min_attribute_id);
        }
        limit_need(self.rows, self.stretches, object, record.max_attribute_id)
    }

    // Whether a row is sure to need nothing: it has no entries, and its attribute no limit.
    pub fn needs_nothing(&self, row: usize) -> bool
        requires within { row < length self.now.rows.now }
        ensures nothing { (h : KnowsNeeds (tables_of self.now)) → result ≡ true
            → (s : ℕ) → none ≡ need_at h.world row s }
    {
        is_bare(self.rows, self.limits, row)
    }

    // How many slots a row has.
    pub fn slots_of(&self, row: usize) -> usize
        requires within { row < length self.now.rows.now }
        ensures defined { result ≡ 2 * get_or (get_or self.now.rows.now row []) 3 0 + 2 }
    {
        2 * index(self.rows[row][ROW_ENTRY_COUNT]) + 2
    }

    // The row in a slot of a row.
    pub fn need_at(&self, row: usize, slot: usize) -> Option<usize>
        requires holding { KnowsNeeds (tables_of self.now) }
        requires within { (row < length self.now.rows.now) × (slot < 2 * get_or (get_or self.now.rows.now row []) 3 0 + 2) }
        ensures defined { (h : KnowsNeeds (tables_of self.now)) → option_of result ≡ need_at h.world row slot }
    {
        let count = index(self.rows[row][ROW_ENTRY_COUNT]);
        let k = slot / 2;
        let odd = slot % 2;
        if count <= k {
            return self.held_need(row, odd);
        }
        let at = index(self.rows[row][ROW_FIRST_ENTRY]) + k;
        let entry = self.entries[at];
        if odd == 0 {
            return source_need(self.rows, self.stretches, entry);
        }
        resistance_need(self.rows, self.stretches, entry)
    }
}
