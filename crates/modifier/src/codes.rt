// Tests of a modifier's codes, when they are reached (pass_2.rs: func, operation, domain).
// A test gives what the code stands for, None where the modifier is passed over, or a refusal.
ghost use Rattle.std.specs.Prelude.{◌≡◌, ℕ, List};
ghost use Rattle.rules.specs.Sheet.{Fit};
ghost use Rattle.rules.specs.Collect.{Move, test_func, test_operation, test_domain, test_projected_domain, then};
ghost use Rattle.modifier.specs.Tests.{OwnerOf, Followed, test_of, own_target};

use item::codes::operator_at;
use item::kinds::{is_charge, is_item, is_skill};
use rules::{DogmaModifier, EffectOperator, Item, Modifier, Refusal};

// An object, with what of the fit its modifiers go by: the charge right after it where there is one, the object before it, a structure fit, the char.
#[derive(Clone, Copy)]
pub struct Owner {
    pub item: Item,
    pub charge: Option<u32>,
    pub before: u32,
    pub structure: bool,
    pub character: u32,
}

// The modifier that a func code stands for.
#[tactic(auto, unfolding(rules::specs::Collect::test_func))]
pub fn get_modifier_func(m: DogmaModifier) -> Result<Option<Modifier>, Refusal>
    ensures defined { test_of result ≡ test_func m }
{
    match m.func {
        0 => Ok(Some(Modifier::LocationRequiredSkillModifier(m.skill_type_id))),
        1 => Ok(Some(Modifier::LocationGroupModifier(m.group_id))),
        2 => Ok(Some(Modifier::LocationModifier)),
        3 => Ok(Some(Modifier::OwnerRequiredSkillModifier(m.skill_type_id))),
        4 => Ok(Some(Modifier::ItemModifier)),
        5 => Ok(None),
        _ => Err(Refusal::Func(m.number)),
    }
}

// The operator that an operation stands for; the number is that of the record: in table 3, or in table 5 for a buff.
#[tactic(auto, unfolding(rules::specs::Collect::test_operation))]
pub fn get_effect_operator(operation: u32, number: u32) -> Result<Option<EffectOperator>, Refusal>
    ensures defined { test_of result ≡ test_operation operation number }
{
    match operator_at(operation) {
        Some(operator) => Ok(Some(operator)),
        None if operation == 9 => Ok(None),
        None => Err(Refusal::Operation(number)),
    }
}

// The other of an item and its charge; of an item, the object after it, whether that is its charge or not.
#[tactic(auto, unfolding(rules::specs::Collect::test_domain))]
fn other_of(w: Owner, m: DogmaModifier) -> Result<Option<u32>, Refusal>
    ensures defined { (f : Fit) → OwnerOf f w → Followed w.item m → m.domain ≡ 3 → test_of result ≡ test_domain f w.item m }
{
    if is_item(w.item) {
        return Ok(Some(w.item.number.saturating_add(1)));
    }
    if is_charge(w.item) {
        return Ok(Some(w.before));
    }
    Err(Refusal::Other(m.number))
}

// The object that an own modifier's domain means.
#[tactic(auto, unfolding(rules::specs::Collect::test_domain))]
pub fn get_target_object(w: Owner, m: DogmaModifier) -> Result<Option<u32>, Refusal>
    ensures defined { (f : Fit) → OwnerOf f w → Followed w.item m → test_of result ≡ test_domain f w.item m }
{
    match m.domain {
        0 => Ok(Some(w.item.number)),
        1 | 4 => Ok(Some(0)),
        2 => Ok(Some(w.character)),
        3 => other_of(w, m),
        5 | 6 => Ok(None),
        _ => Err(Refusal::Domain(m.number)),
    }
}

// The target of an own modifier, unless it is passed over: an item without charge, a skill's ship domain on a structure fit.
#[tactic(auto, using(crate::proofs::Tests::aimed_at, crate::proofs::Tests::skipped))]
pub fn get_own_target(w: Owner, m: DogmaModifier) -> Result<Option<u32>, Refusal>
    ensures defined { (f : Fit) (g : ℕ → List Move) → OwnerOf f w → then (test_of result) g ≡ own_target f w.item m g }
{
    if is_item(w.item) & (m.domain == 3) & w.charge.is_none() {
        return Ok(None);
    }
    if is_skill(w.item) & w.structure & (m.domain == 1) {
        return Ok(None);
    }
    get_target_object(w, m)
}

// The object that a projected modifier's domain means.
#[tactic(auto, unfolding(rules::specs::Collect::test_projected_domain))]
pub fn get_projected_object(w: Owner, m: DogmaModifier) -> Result<Option<u32>, Refusal>
    ensures defined { (f : Fit) → OwnerOf f w → test_of result ≡ test_projected_domain f m }
{
    match m.domain {
        0 | 3 => Ok(None),
        1 | 4..=6 => Ok(Some(0)),
        2 => Ok(Some(w.character)),
        _ => Err(Refusal::Domain(m.number)),
    }
}
