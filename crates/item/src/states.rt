// The states that effects run in. A state goes by its code.
ghost use Rattle.std.specs.Prelude.{◌≡◌};
ghost use Rattle.rules.specs.Codes.{category_at, state_code};
ghost use Rattle.rules.specs.Item.{required_state, lowest_state, runs_answer, is_passive, category_on};
ghost use Rattle.rules.specs.States.{code_or0, raised_to};

use super::codes::category_at;
use super::locations::is_rig;
use rules::{EffectCategory, Item, ItemState, RunsAt};

// A state's code.
pub fn state_code(state: ItemState) -> u32
    ensures defined { result ≡ state_code state }
{
    state as u32
}

// The lowest state that would do: what asks for none runs once the item is active. An arm for each category, as the definition has it.
pub fn lowest_state(category: EffectCategory) -> ItemState
    ensures defined { result ≡ lowest_state category }
{
    match category {
        EffectCategory::Passive => ItemState::Passive,
        EffectCategory::Online => ItemState::Online,
        EffectCategory::Active => ItemState::Active,
        EffectCategory::Overload => ItemState::Overload,
        EffectCategory::Target => ItemState::Active,
        EffectCategory::Area => ItemState::Active,
        EffectCategory::Dungeon => ItemState::Active,
        EffectCategory::System => ItemState::Active,
    }
}

// Whether an effect of the category runs on an item in the state, and the lowest state that would do.
pub fn runs_at(category: EffectCategory, state: u32) -> RunsAt
    ensures defined { result ≡ runs_answer category state }
{
    let lowest = lowest_state(category);
    let runs = state_code(lowest) <= state;
    RunsAt { runs, lowest }
}

// Whether a category is Passive.
pub fn is_passive(category: EffectCategory) -> bool
    ensures defined { result ≡ is_passive category }
{
    matches!(category, EffectCategory::Passive)
}

// The category that an object has an effect in: a rig's Passive is Online.
pub fn category_on(o: Item, category: EffectCategory) -> EffectCategory
    ensures defined { result ≡ category_on o category }
{
    if is_rig(o) & is_passive(category) {
        return EffectCategory::Online;
    }
    category
}

// The state that an effect of the category lets its object be in; the last four raise nothing.
fn reaches(category: EffectCategory) -> u32
    ensures defined { result ≡ code_or0 (required_state category) }
{
    match category {
        EffectCategory::Online => 1,
        EffectCategory::Active => 2,
        EffectCategory::Overload => 3,
        EffectCategory::Passive
        | EffectCategory::Target
        | EffectCategory::Area
        | EffectCategory::Dungeon
        | EffectCategory::System => 0,
    }
}

// The same of an effect that has a category's code, on this object.
pub fn raises_to(o: Item, code: u32) -> u32
    ensures defined { result ≡ raised_to o (category_at code) }
{
    match category_at(code) {
        Some(category) => reaches(category_on(o, category)),
        None => 0,
    }
}
