// The rows of lists 1 and 4, as what a modifier gives is added to them (pass_2.rs, the inside of collection).
ghost use Rattle.std.specs.Prelude.{◌≡◌, [], ◌∷◌, ◌≤◌, length};
ghost use Rattle.rules.specs.Collect as rules;
ghost use Rattle.rules.specs.Columns.{collected_numbers, modifier_numbers, optional_numbers, origin_numbers, origin_value};
ghost use Rattle.modifier.specs.Ran.{Lent, RunsCollected, RunsPlain};

use columns::{
    COLLECTED_BUFF, COLLECTED_EFFECT, COLLECTED_MODIFYING_ATTRIBUTE, COLLECTED_ORIGIN,
    COLLECTED_SOURCE, COLLECTED_SOURCE_CATEGORY, CollectedRow, PlainRow,
};
use item::codes::{category_code, operator_code};
use numbers::integers::{bits, optional_numbers};
use rules::{Modifier, Origin, Pass2Effect, Refusal};

// The first six numbers of a row of list 1, what the effect comes from, and the next two.
type OriginNumbers = [u32; 6];

type ModifierNumbers = [u32; 2];

// The rooms of lists 1 and 4: a type of its own, since a room is no count.
#[derive(Clone, Copy)]
pub struct CollectedRooms {
    pub collected: usize,
    pub plain: usize,
}

// How many rows stand in lists 1 and 4.
#[derive(Clone, Copy)]
pub struct CollectedCounts {
    pub collected: usize,
    pub plain: usize,
}

// Numbers 0 to 5 of a row of list 1: effect or buff, the effect, its source, its category, the attribute, the buff (`origin_numbers`).
fn origin_numbers(o: Origin) -> OriginNumbers
    ensures defined { result ≡ origin_numbers o }
{
    match o {
        Origin::Effect {
            effect_id,
            source,
            source_category,
            attribute_id,
        } => {
            let id = bits(effect_id);
            let category = category_code(source_category);
            let strength = bits(attribute_id);
            [0, id, source, category, strength, 0]
        }
        Origin::Buff { buff_id, value: _ } => {
            let id = bits(buff_id);
            [1, 0, 0, 0, 0, id]
        }
    }
}

// The value beside a row of list 1: a buff's.
fn origin_value(o: Origin) -> f64
    ensures defined { result ≡ origin_value o }
{
    match o {
        Origin::Effect {
            effect_id: _,
            source: _,
            source_category: _,
            attribute_id: _,
        } => 0.0,
        Origin::Buff { buff_id: _, value } => value,
    }
}

// Numbers 6 and 7: the func code, and the skill or group (`modifier_numbers`).
fn modifier_numbers(m: Modifier) -> ModifierNumbers
    ensures defined { result ≡ modifier_numbers m }
{
    match m {
        Modifier::LocationRequiredSkillModifier(skill) => [0, bits(skill)],
        Modifier::LocationGroupModifier(group) => [1, bits(group)],
        Modifier::LocationModifier => [2, 0],
        Modifier::OwnerRequiredSkillModifier(skill) => [3, bits(skill)],
        Modifier::ItemModifier => [4, 0],
    }
}

// A row of list 1: origin, modifier, operator, quantity, target, its attribute, resistance (`collected_numbers`).
fn collected_numbers(e: Pass2Effect) -> CollectedRow
    ensures defined { result ≡ collected_numbers e }
{
    let origin = e.origin;
    let modifier = e.modifier;
    let operator = e.operator;
    let resistance = e.resistance;
    let o = origin_numbers(origin);
    let m = modifier_numbers(modifier);
    let code = operator_code(operator);
    let attribute = bits(e.target_attribute_id);
    let r = optional_numbers(resistance);
    [
        o[COLLECTED_ORIGIN],
        o[COLLECTED_EFFECT],
        o[COLLECTED_SOURCE],
        o[COLLECTED_SOURCE_CATEGORY],
        o[COLLECTED_MODIFYING_ATTRIBUTE],
        o[COLLECTED_BUFF],
        m[0],
        m[1],
        code,
        e.source_quantity,
        e.target,
        attribute,
        r[0],
        r[1],
    ]
}

// A collected effect goes to the end of list 1.
#[tactic(auto, unfolding(crate::specs::Ran::ran, crate::specs::Ran::moved))]
pub fn push(
    collected: &mut [CollectedRow],
    collected_values: &mut [f64],
    rooms: CollectedRooms,
    used: CollectedCounts,
    e: Pass2Effect,
) -> Result<CollectedCounts, Refusal>
    requires lent { Lent rooms collected.old collected_values.old }
    ensures defined { RunsCollected rooms result used (rules.taken e ∷ []) collected collected_values }
{
    let n = used.collected;
    if rooms.collected <= n {
        return Err(Refusal::Room(1));
    }
    let row = collected_numbers(e);
    let value = origin_value(e.origin);
    collected[n] = row;
    collected_values[n] = value;
    Ok(CollectedCounts {
        collected: n + 1,
        ..used
    })
}

// A plain effect goes to the end of list 4.
#[tactic(auto, unfolding(crate::specs::Ran::ran, crate::specs::Ran::moved))]
pub fn push_plain(
    plain: &mut [PlainRow],
    rooms: CollectedRooms,
    used: CollectedCounts,
    object: u32,
    id: i32,
) -> Result<CollectedCounts, Refusal>
    requires lent { rooms.plain ≤ length plain.old }
    ensures defined { RunsPlain rooms result used (rules.plain object id ∷ []) plain }
{
    let n = used.plain;
    if rooms.plain <= n {
        return Err(Refusal::Room(4));
    }
    let code = bits(id);
    plain[n] = [object, code];
    Ok(CollectedCounts {
        plain: n + 1,
        ..used
    })
}
