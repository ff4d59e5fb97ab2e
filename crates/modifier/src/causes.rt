// What one modifier gives, by what it is collected for (pass_2.rs, the inside of collection).
ghost use Rattle.std.specs.Prelude.{◌≡◌, ◌&&◌, cond};
ghost use Rattle.laws.specs.Lists.{eq_z};
ghost use Rattle.rules.specs.Constants.{upgrade_load};
ghost use Rattle.rules.specs.Sheet.{Book, Fit};
ghost use Rattle.rules.specs.Item.{is_rig};
ghost use Rattle.rules.specs.Collect.{modifier_moves, projected_modifier_moves, buff_modifier_moves};
ghost use Rattle.modifier.specs.Tests.{OwnerOf};
ghost use Rattle.modifier.specs.Causes.{moves_of, effect_of, resistance_of};

use super::codes::{
    Owner, get_effect_operator, get_modifier_func, get_own_target, get_projected_object,
};
use item::locations::is_rig;
use rules::{
    ATTRIBUTE_UPGRADE_LOAD_ID, DogmaEffect, DogmaModifier, EffectCategory, EffectOperator, Item,
    Modifier, Origin, Pass2Effect, ProjectedBuff, Refusal,
};

// On attribute 1152 a rig keeps Passive.
fn source_category(o: Item, category: EffectCategory, attribute: i32) -> EffectCategory
    ensures defined { result ≡ cond (is_rig o && eq_z attribute upgrade_load) EffectCategory.Passive category }
{
    if is_rig(o) & (attribute == ATTRIBUTE_UPGRADE_LOAD_ID) {
        return EffectCategory::Passive;
    }
    category
}

// The collected effect of an object's modifier, by what its tests gave.
fn effect_of(
    o: Item,
    e: DogmaEffect,
    m: DogmaModifier,
    source: EffectCategory,
    resistance: Option<i32>,
    modifier: Modifier,
    operator: EffectOperator,
    target: u32,
) -> Pass2Effect
    ensures defined { result ≡ effect_of o e m source resistance modifier operator target }
{
    Pass2Effect {
        origin: Origin::Effect {
            effect_id: e.id,
            source: o.number,
            source_category: source,
            attribute_id: m.modifying_attribute_id,
        },
        modifier,
        operator,
        source_quantity: o.quantity,
        target,
        target_attribute_id: m.modified_attribute_id,
        resistance,
    }
}

// An own modifier: func, operation, item without charge, ship domain skipped, target domain. None is passed over.
#[tactic(auto, using(crate::proofs::Tests::given_on), unfolding(rules::specs::Collect::modifier_moves))]
pub fn own_move(
    w: Owner,
    e: DogmaEffect,
    category: EffectCategory,
    m: DogmaModifier,
) -> Result<Option<Pass2Effect>, Refusal>
    ensures defined { (k : Book) (f : Fit) → OwnerOf f w → moves_of result ≡ modifier_moves k f w.item e category m }
{
    let o = w.item;
    let Some(modifier) = get_modifier_func(m)? else {
        return Ok(None);
    };
    let Some(operator) = get_effect_operator(m.operation, m.number)? else {
        return Ok(None);
    };
    let Some(target) = get_own_target(w, m)? else {
        return Ok(None);
    };
    let source = source_category(o, category, m.modified_attribute_id);
    let t = effect_of(o, e, m, source, None, modifier, operator, target);
    Ok(Some(t))
}

// A projected modifier: domain, func, operation.
#[tactic(auto, using(crate::proofs::Tests::given_on), unfolding(rules::specs::Collect::projected_modifier_moves))]
pub fn projected_move(
    w: Owner,
    e: DogmaEffect,
    category: EffectCategory,
    resistance: Option<i32>,
    m: DogmaModifier,
) -> Result<Option<Pass2Effect>, Refusal>
    ensures defined { (f : Fit) → OwnerOf f w → resistance ≡ resistance_of f w.item e
        → moves_of result ≡ projected_modifier_moves f w.item e category m }
{
    let o = w.item;
    let Some(target) = get_projected_object(w, m)? else {
        return Ok(None);
    };
    let Some(modifier) = get_modifier_func(m)? else {
        return Ok(None);
    };
    let Some(operator) = get_effect_operator(m.operation, m.number)? else {
        return Ok(None);
    };
    let t = effect_of(o, e, m, category, resistance, modifier, operator, target);
    Ok(Some(t))
}

// A modifier of a buff: func.
#[tactic(auto, using(crate::proofs::Tests::given_on), unfolding(rules::specs::Collect::buff_modifier_moves))]
pub fn buff_move(
    b: ProjectedBuff,
    operator: EffectOperator,
    m: DogmaModifier,
) -> Result<Option<Pass2Effect>, Refusal>
    ensures defined { moves_of result ≡ buff_modifier_moves b operator m }
{
    let Some(modifier) = get_modifier_func(m)? else {
        return Ok(None);
    };
    Ok(Some(Pass2Effect {
        origin: Origin::Buff {
            buff_id: b.id,
            value: b.value,
        },
        modifier,
        operator,
        source_quantity: 1,
        target: 0,
        target_attribute_id: m.modified_attribute_id,
        resistance: None,
    }))
}
