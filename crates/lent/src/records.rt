// Records of lent tables by value, as a sheet's reader has them.
ghost use Rattle.std.specs.Prelude.{◌≡◌, ◌^◌, ◌<◌, length};
ghost use Rattle.tables.specs.Tables.{row, value, number, attribute_of, effect_of, type_effect_of, buff_collection_of, object_of, base_of, ask_of};

use columns::{
    ASK_ATTRIBUTE, ASK_OBJECT, ATTRIBUTE_FLAGS, ATTRIBUTE_ID, ATTRIBUTE_MAX, ATTRIBUTE_MIN,
    AskFields, AttributeFields, BUFF_COLLECTION_FIRST_MODIFIER, BUFF_COLLECTION_ID,
    BUFF_COLLECTION_MODIFIER_COUNT, BUFF_COLLECTION_OPERATION, BuffCollectionFields,
    EFFECT_CATEGORY, EFFECT_FIRST_MODIFIER, EFFECT_ID, EFFECT_MODIFIER_COUNT, EFFECT_RESISTANCE,
    EFFECT_USAGE_CHANCE, EffectFields, OBJECT_ABILITY_COUNT, OBJECT_BASE_COUNT, OBJECT_CATEGORY,
    OBJECT_FIRST_ABILITY, OBJECT_FIRST_BASE, OBJECT_FIRST_SIDE_EFFECT, OBJECT_FLAGS, OBJECT_GROUP,
    OBJECT_KIND, OBJECT_MAX_STATE, OBJECT_MUTATION_BASE, OBJECT_PROJECTED_EFFECT, OBJECT_QUANTITY,
    OBJECT_SIDE_EFFECT_COUNT, OBJECT_SLOT, OBJECT_STATE, OBJECT_TYPE, ObjectFields,
    TYPE_EFFECT_DEFAULT, TYPE_EFFECT_EFFECT, TYPE_EFFECT_TYPE, TypeEffectFields,
};
use numbers::integers::signed;
use rules::{
    Ask, BaseAttribute, DbuffCollection, DogmaAttribute, DogmaEffect, Item, TypeDogmaEffect,
};

// Record i of table 1.
pub fn attribute(attributes: &[AttributeFields], defaults: &[f64], i: usize) -> DogmaAttribute
    requires inside { (i < length attributes.now) × (i < length defaults.now) }
    ensures defined { result ≡ attribute_of (row attributes.now i) (value defaults.now i) }
{
    let fields = attributes[i];
    let default_value = defaults[i];
    DogmaAttribute {
        id: signed(fields[ATTRIBUTE_ID]),
        flags: fields[ATTRIBUTE_FLAGS],
        default_value,
        min_attribute_id: signed(fields[ATTRIBUTE_MIN]),
        max_attribute_id: signed(fields[ATTRIBUTE_MAX]),
    }
}

// Record i of table 2, with its number.
pub fn effect(effects: &[EffectFields], i: usize) -> DogmaEffect
    requires inside { i < length effects.now }
    requires few { i < 2 ^ 32 }
    ensures defined { result ≡ effect_of i (row effects.now i) }
{
    let fields = effects[i];
    DogmaEffect {
        number: i as u32,
        id: signed(fields[EFFECT_ID]),
        category: fields[EFFECT_CATEGORY],
        resistance_attribute_id: signed(fields[EFFECT_RESISTANCE]),
        usage_chance_attribute_id: signed(fields[EFFECT_USAGE_CHANCE]),
        first_modifier: fields[EFFECT_FIRST_MODIFIER],
        modifiers: fields[EFFECT_MODIFIER_COUNT],
    }
}

// Record i of table 4.
pub fn type_effect(type_effects: &[TypeEffectFields], i: usize) -> TypeDogmaEffect
    requires inside { i < length type_effects.now }
    ensures defined { result ≡ type_effect_of (row type_effects.now i) }
{
    let fields = type_effects[i];
    TypeDogmaEffect {
        type_id: signed(fields[TYPE_EFFECT_TYPE]),
        effect_id: signed(fields[TYPE_EFFECT_EFFECT]),
        is_default: fields[TYPE_EFFECT_DEFAULT],
    }
}

// Record i of table 5, with its number.
pub fn buff_collection(buff_collections: &[BuffCollectionFields], i: usize) -> DbuffCollection
    requires inside { i < length buff_collections.now }
    requires few { i < 2 ^ 32 }
    ensures defined { result ≡ buff_collection_of i (row buff_collections.now i) }
{
    let fields = buff_collections[i];
    DbuffCollection {
        number: i as u32,
        id: signed(fields[BUFF_COLLECTION_ID]),
        operation: fields[BUFF_COLLECTION_OPERATION],
        first_modifier: fields[BUFF_COLLECTION_FIRST_MODIFIER],
        modifiers: fields[BUFF_COLLECTION_MODIFIER_COUNT],
    }
}

// Record i of table 6, with its number.
pub fn object(objects: &[ObjectFields], i: usize) -> Item
    requires inside { i < length objects.now }
    requires few { i < 2 ^ 32 }
    ensures defined { result ≡ object_of i (row objects.now i) }
{
    let fields = objects[i];
    Item {
        number: i as u32,
        kind: fields[OBJECT_KIND],
        type_id: signed(fields[OBJECT_TYPE]),
        group_id: signed(fields[OBJECT_GROUP]),
        category_id: signed(fields[OBJECT_CATEGORY]),
        slot: fields[OBJECT_SLOT],
        quantity: fields[OBJECT_QUANTITY],
        state: fields[OBJECT_STATE],
        max_state: fields[OBJECT_MAX_STATE],
        flags: fields[OBJECT_FLAGS],
        mutation_base: signed(fields[OBJECT_MUTATION_BASE]),
        projected_effect: signed(fields[OBJECT_PROJECTED_EFFECT]),
        first_attribute: fields[OBJECT_FIRST_BASE],
        attributes: fields[OBJECT_BASE_COUNT],
        first_ability: fields[OBJECT_FIRST_ABILITY],
        abilities: fields[OBJECT_ABILITY_COUNT],
        first_side_effect: fields[OBJECT_FIRST_SIDE_EFFECT],
        side_effects: fields[OBJECT_SIDE_EFFECT_COUNT],
    }
}

// Record i of table 7.
pub fn base_attribute(base_attributes: &[u32], base_values: &[f64], i: usize) -> BaseAttribute
    requires inside { (i < length base_attributes.now) × (i < length base_values.now) }
    ensures defined { result ≡ base_of (number base_attributes.now i) (value base_values.now i) }
{
    let attribute_id = base_attributes[i];
    let value = base_values[i];
    BaseAttribute {
        attribute_id: signed(attribute_id),
        value,
    }
}

// Record i of table 10.
pub fn ask(asks: &[AskFields], i: usize) -> Ask
    requires inside { i < length asks.now }
    ensures defined { result ≡ ask_of (row asks.now i) }
{
    let fields = asks[i];
    Ask {
        object: fields[ASK_OBJECT],
        attribute_id: signed(fields[ASK_ATTRIBUTE]),
    }
}
