// A source row by value, and its numbers.
ghost use Rattle.std.specs.Prelude.{◌≡◌, [], ◌∷◌, ◌≤◌, length};
ghost use Rattle.rules.specs.Columns.{yes1, from_numbers, optional_numbers, source_numbers, source_floats};
ghost use Rattle.rules.specs.Value.{from_of, effect_id_of, source_attribute_id_of, needed_state, to_source};
ghost use Rattle.sources.specs.Shown.{placed};

use super::Recording;
use columns::{SourceFloats, SourceRow};
use item::codes::operator_code;
use item::states::{lowest_state, state_code};
use numbers::integers::{bits, flag, optional_numbers};
use rules::{Effect, ItemState, Origin, Source, SourceRef};

// What a source row is from, as two numbers.
fn from_numbers(s: SourceRef) -> [u32; 2]
    ensures defined { result ≡ from_numbers s }
{
    match s {
        SourceRef::Object { number } => [0, number],
        SourceRef::Buff { id } => [1, bits(id)],
    }
}

// The numbers of a source row.
fn source_numbers(s: Source) -> SourceRow
    ensures defined { result ≡ source_numbers s }
{
    let a = from_numbers(s.from);
    let b = optional_numbers(s.effect_id);
    let c = optional_numbers(s.source_attribute_id);
    let code = operator_code(s.operator);
    let penalised = flag(s.penalised);
    let applied = flag(s.applied);
    let needed = state_code(s.state);
    [
        a[0], a[1], b[0], b[1], c[0], c[1], code, s.quantity, penalised, applied, needed,
    ]
}

// What an entry's source row is from: the object, or the buff.
fn from_of(o: Origin) -> SourceRef
    ensures defined { result ≡ from_of o }
{
    match o {
        Origin::Effect { source, .. } => SourceRef::Object { number: source },
        Origin::Buff { buff_id, .. } => SourceRef::Buff { id: buff_id },
    }
}

// The effect of an entry, which a buff has not.
fn effect_id_of(o: Origin) -> Option<i32>
    ensures defined { result ≡ effect_id_of o }
{
    match o {
        Origin::Effect { effect_id, .. } => Some(effect_id),
        Origin::Buff { .. } => None,
    }
}

// The attribute that an entry is read off, which a buff has not; a function over both would take the field as a closure and be longer.
fn source_attribute_id_of(o: Origin) -> Option<i32>
    ensures defined { result ≡ source_attribute_id_of o }
{
    match o {
        Origin::Effect { attribute_id, .. } => Some(attribute_id),
        Origin::Buff { .. } => None,
    }
}

// The lowest state of an entry's source that would do: a buff needs none.
fn needed_state(o: Origin) -> ItemState
    ensures defined { result ≡ needed_state o }
{
    match o {
        Origin::Effect {
            source_category,
            ..
        } => lowest_state(source_category),
        Origin::Buff { .. } => ItemState::Passive,
    }
}

// The source row of an entry; its strength is that after resistance, before it is simplified.
pub fn to_source(e: Effect, strength: f64, applied: bool, quantity: u32, penalised: bool) -> Source
    ensures defined { result ≡ to_source e strength applied quantity penalised }
{
    Source {
        from: from_of(e.origin),
        effect_id: effect_id_of(e.origin),
        source_attribute_id: source_attribute_id_of(e.origin),
        operator: e.operator,
        value: strength,
        quantity,
        penalised,
        penalty: 0.0,
        applied,
        state: needed_state(e.origin),
    }
}

// A source row goes to its place; what lies past the room is not written.
pub fn put_source(
    sources: &mut [SourceRow],
    floats: &mut [SourceFloats],
    run: Recording,
    place: usize,
    s: Source,
)
    requires roomy { run.room ≤ length sources.old }
    requires roomy_floats { run.room ≤ length floats.old }
    ensures numbers { sources.new ≡ placed run.room place (source_numbers s) sources.old }
    ensures floats { floats.new ≡ placed run.room place (source_floats s) floats.old }
{
    let room = run.room as usize;
    if place < room {
        sources[place] = source_numbers(s);
        floats[place] = [s.value, s.penalty];
    }
}
