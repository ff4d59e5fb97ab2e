// Which of an object's effects are in use (pass_2.rs: abilities and side effects).
ghost use Rattle.std.specs.Prelude.{◌≡◌, ◌+◌, ◌≤◌};
ghost use Rattle.laws.specs.Lists.{eq_z, some?, span};
ghost use Rattle.rules.specs.Bytes.{count_of};
ghost use Rattle.rules.specs.Sheet.{Book, fit_of};
ghost use Rattle.rules.specs.Collect.{in_use};
ghost use Rattle.info.specs.At.{fit_at};
ghost use Rattle.info.specs.Sound.{HeldFit, SoundFit};
ghost use Rattle.collect.specs.OfFit.{OfFit};
ghost use Rattle.collect.specs.Uses.{is_able, is_taken};

use columns::TablePairs;
use info::little_endian::index;
use info::records::id_at;
use item::kinds::abilities_given;
use item::locations::is_fighter;
use item::states::is_passive;
use rules::{DogmaEffect, EffectCategory, Item, TypeDogmaEffect};

// Whether an id is among those that an object's record points at.
fn has_id(fit: &[u8], pairs: &TablePairs, first: u32, count: u32, id: i32) -> bool
    requires held_fit { HeldFit fit.now pairs.now }
    requires inside { first + count ≤ count_of pairs.now 8 }
    ensures defined { result ≡ some? (eq_z id) (span first count (fit_at fit pairs).ids) }
{
    let start = index(first);
    let end = start + index(count);
    (start..end).any(|i| id_at(fit, pairs, i) == id)
}

// A fighter's effect that is not Passive is an ability, and the fit picks which run.
fn is_able(
    fit: &[u8],
    pairs: &TablePairs,
    o: Item,
    id: i32,
    default: u32,
    category: EffectCategory,
) -> bool
    requires sound_fit { SoundFit fit.now pairs.now }
    requires of_fit { OfFit (fit_of fit.now pairs.now) o }
    ensures defined { result ≡ is_able (fit_at fit pairs) o id default category }
{
    if is_fighter(o) & !is_passive(category) {
        if abilities_given(o) {
            return has_id(fit, pairs, o.first_ability, o.abilities, id);
        }
        return default == 1;
    }
    true
}

// A side effect is one that the fit names.
fn is_taken(fit: &[u8], pairs: &TablePairs, o: Item, e: DogmaEffect) -> bool
    requires sound_fit { SoundFit fit.now pairs.now }
    requires of_fit { OfFit (fit_of fit.now pairs.now) o }
    ensures defined { result ≡ is_taken (fit_at fit pairs) o e }
{
    e.usage_chance_attribute_id == 0
        || has_id(fit, pairs, o.first_side_effect, o.side_effects, e.id)
}

// Whether an object's effect is in use at all.
pub fn is_used(
    fit: &[u8],
    pairs: &TablePairs,
    o: Item,
    e: DogmaEffect,
    t: TypeDogmaEffect,
    category: EffectCategory,
) -> bool
    requires sound_fit { SoundFit fit.now pairs.now }
    requires of_fit { OfFit (fit_of fit.now pairs.now) o }
    ensures defined { (k : Book) → result ≡ in_use k (fit_at fit pairs) o e t category }
{
    is_able(fit, pairs, o, e.id, t.is_default, category) & is_taken(fit, pairs, o, e)
}
