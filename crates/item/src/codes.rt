// The sheet's codes of categories and operators, and what they stand for.
ghost use Rattle.std.specs.Prelude.{◌≡◌};
ghost use Rattle.laws.specs.Options.{option_of};
ghost use Rattle.rules.specs.Codes.{category_at, category_code, operator_at, operator_code};

use rules::{EffectCategory, EffectOperator};

// The category that a code of the sheet stands for; it may stand for none. The definition has it by this name, and a TryFrom would stand in `rules`.
pub fn category_at(code: u32) -> Option<EffectCategory>
    ensures defined { option_of result ≡ category_at code }
{
    match code {
        0 => Some(EffectCategory::Passive),
        1 => Some(EffectCategory::Online),
        2 => Some(EffectCategory::Active),
        3 => Some(EffectCategory::Overload),
        4 => Some(EffectCategory::Target),
        5 => Some(EffectCategory::Area),
        6 => Some(EffectCategory::Dungeon),
        7 => Some(EffectCategory::System),
        _ => None,
    }
}

// A category's code.
pub fn category_code(category: EffectCategory) -> u32
    ensures defined { result ≡ category_code category }
{
    category as u32
}

// The operator that a code of the sheet stands for; it may stand for none. As above.
pub fn operator_at(code: u32) -> Option<EffectOperator>
    ensures defined { option_of result ≡ operator_at code }
{
    match code {
        0 => Some(EffectOperator::PreAssign),
        1 => Some(EffectOperator::PreMul),
        2 => Some(EffectOperator::PreDiv),
        3 => Some(EffectOperator::ModAdd),
        4 => Some(EffectOperator::ModSub),
        5 => Some(EffectOperator::PostMul),
        6 => Some(EffectOperator::PostDiv),
        7 => Some(EffectOperator::PostPercent),
        8 => Some(EffectOperator::PostAssign),
        _ => None,
    }
}

// An operator's code.
pub fn operator_code(operator: EffectOperator) -> u32
    ensures defined { result ≡ operator_code operator }
{
    operator as u32
}
