// Entries by value, and what is asked of them.
ghost use Rattle.std.specs.Prelude.{◌≡◌, List, [], ◌++◌, ℕ, ◌-◌, ◌≤◌, ◌<◌, length, get_or};
ghost use Rattle.std.specs.Float.{nan};
ghost use Rattle.laws.specs.Lists.{some?, span};
ghost use Rattle.rules.specs.Ids.{OptionalId};
ghost use Rattle.rules.specs.Codes.{category_code, operator_code};
ghost use Rattle.rules.specs.Operate.{has_penalty};
ghost use Rattle.rules.specs.Columns.{origin_numbers, origin_value, optional_numbers};
ghost use Rattle.info.specs.Stands.{NarrowOrigin, NarrowId};
ghost use Rattle.reading.specs.Held.{EntryHeld, Sourced, is_running, has_code, is_marked};

use columns::{
    ENTRY_BUFF, ENTRY_COLLECTED, ENTRY_EFFECT, ENTRY_MODIFYING_ATTRIBUTE, ENTRY_OPERATOR,
    ENTRY_ORIGIN, ENTRY_PENALTY, ENTRY_QUANTITY, ENTRY_RESISTANCE, ENTRY_RESISTANCE_GIVEN,
    ENTRY_SOURCE, ENTRY_SOURCE_CATEGORY, EntryRow, OPERATORS, OperatorMarks, STATE, States,
};
use info::little_endian::index;
use item::codes::{category_at, operator_at};
use item::states::runs_at;
use numbers::integers::signed;
use rules::{Effect, EffectCategory, EffectOperator, Origin};

// What the code of a category stands for; no other number is met.
fn category_of(code: u32) -> EffectCategory
    ensures defined { (c : EffectCategory) → code ≡ category_code c → result ≡ c }
{
    let found = category_at(code);
    match found {
        Some(category) => category,
        None => EffectCategory::Passive,
    }
}

// What the code of an operator stands for; no other number is met. The two codes are two words of the definition, so the functions stay two.
pub fn operator_of(code: u32) -> EffectOperator
    ensures defined { (o : EffectOperator) → code ≡ operator_code o → result ≡ o }
{
    let found = operator_at(code);
    match found {
        Some(operator) => operator,
        None => EffectOperator::PreAssign,
    }
}

// An id and the flag beside it, which says whether it is given.
fn optional_id(given: u32, id: u32) -> Option<i32>
    ensures defined { (o : OptionalId) → NarrowId o → given ≡ get_or (optional_numbers o) 0 0 → id ≡ get_or (optional_numbers o) 1 0
        → result ≡ o }
{
    if given == 1 {
        return Some(signed(id));
    }
    None
}

// Where an entry comes from: an effect of an object, or a buff with its value.
fn origin_of(row: EntryRow, value: f64) -> Origin
    ensures defined { (g : Origin) (rest : List ℕ) → NarrowOrigin g → row ≡ origin_numbers g ++ rest → value ≡ origin_value g
        → result ≡ g }
{
    if row[ENTRY_ORIGIN] == 0 {
        return Origin::Effect {
            effect_id: signed(row[ENTRY_EFFECT]),
            source: row[ENTRY_SOURCE],
            source_category: category_of(row[ENTRY_SOURCE_CATEGORY]),
            attribute_id: signed(row[ENTRY_MODIFYING_ATTRIBUTE]),
        };
    }
    Origin::Buff {
        buff_id: signed(row[ENTRY_BUFF]),
        value,
    }
}

// Entry i, by value: a buff's value is in its origin.
pub fn entry_at(entries: &[EntryRow], values: &[f64], i: usize) -> Effect
    requires inside { (i < length entries.now) × (i < length values.now) }
    ensures defined { (e : Effect) → EntryHeld e (get_or entries.now i []) (get_or values.now i nan) → result ≡ e }
{
    let row = entries[i];
    let value = values[i];
    Effect {
        origin: origin_of(row, value),
        operator: operator_of(row[ENTRY_OPERATOR]),
        penalty: row[ENTRY_PENALTY] == 1,
        quantity: row[ENTRY_QUANTITY],
        resistance: optional_id(row[ENTRY_RESISTANCE_GIVEN], row[ENTRY_RESISTANCE]),
        number: row[ENTRY_COLLECTED],
    }
}

// Whether an entry runs: a buff always does.
pub fn is_running(states: &States, origin: Origin) -> bool
    requires sourced { Sourced origin }
    ensures defined { result ≡ is_running states.now origin }
{
    match origin {
        Origin::Effect {
            effect_id: _,
            source,
            source_category,
            attribute_id: _,
        } => {
            let s = index(source);
            let state = states[s][STATE];
            let answer = runs_at(source_category, state);
            answer.runs
        }
        Origin::Buff {
            buff_id: _,
            value: _,
        } => true,
    }
}

// A mark for each operator that an entry from first to end is of, at its code.
pub fn operators_in(entries: &[EntryRow], first: usize, end: usize) -> OperatorMarks
    requires inside { end ≤ length entries.now }
    ensures marked { (c : ℕ) → c < 9 → is_marked result c ≡ some? (has_code c) (span first (end - first) entries.now) }
{
    let mut marks = [0u32; OPERATORS];
    for i in first..end {
        let code = index(entries[i][ENTRY_OPERATOR]);
        if code < OPERATORS {
            marks[code] = 1;
        }
    }
    marks
}

// Whether an operator takes the stacking penalty: an arm for each, as the definition has it.
pub fn has_penalty(operator: EffectOperator) -> bool
    ensures defined { result ≡ has_penalty operator }
{
    match operator {
        EffectOperator::PreAssign => false,
        EffectOperator::PreMul => true,
        EffectOperator::PreDiv => true,
        EffectOperator::ModAdd => false,
        EffectOperator::ModSub => false,
        EffectOperator::PostMul => true,
        EffectOperator::PostDiv => true,
        EffectOperator::PostPercent => true,
        EffectOperator::PostAssign => false,
    }
}
