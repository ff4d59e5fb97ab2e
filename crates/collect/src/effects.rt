// The effects of an object: its type's own, then its base's (pass_2.rs, the inside of collection).
ghost use Rattle.std.specs.Prelude.{◌+◌, ◌≤◌};
ghost use Rattle.rules.specs.Bytes.{count_of};
ghost use Rattle.rules.specs.Sheet.{fit_of};
ghost use Rattle.rules.specs.Collect.{found_moves, effect_moves, own_moves};
ghost use Rattle.info.specs.At.{book_at, fit_at};
ghost use Rattle.info.specs.Sound.{HeldBook, SoundBook, SoundFit};
ghost use Rattle.modifier.specs.Tests.{OwnerOf};
ghost use Rattle.modifier.specs.Ran.{AllLent, Runs};
ghost use Rattle.collect.specs.OfFit.{OfFit};

use super::collecting::collect_modifiers;
use super::uses::is_used;
use columns::{CollectedRow, EffectPlaces, PlainRow, TablePairs};
use info::look_ups::{get_dogma_effect, get_dogma_effects};
use item::codes::category_at;
use item::kinds::mutation_base;
use item::states::category_on;
use modifier::causes::own_move;
use modifier::codes::Owner;
use modifier::moves::{CollectedCounts, CollectedRooms, push_plain};
use rules::{DogmaEffect, Refusal, TypeDogmaEffect};
use states::{base_effects, effect_at, is_doubled};

// The category is tested for every effect found. An effect with no modifiers goes to the plain list.
fn collect_found(
    collected: &mut [CollectedRow],
    collected_values: &mut [f64],
    plain: &mut [PlainRow],
    book: &[u8],
    fit: &[u8],
    pairs: &TablePairs,
    rooms: CollectedRooms,
    used: CollectedCounts,
    w: Owner,
    t: TypeDogmaEffect,
    e: DogmaEffect,
) -> Result<CollectedCounts, Refusal>
    requires lent { AllLent rooms collected.old collected_values.old plain.old }
    requires held_book { HeldBook book.now pairs.now }
    requires sound_fit { SoundFit fit.now pairs.now }
    requires of_fit { OfFit (fit_of fit.now pairs.now) w.item }
    requires owner { OwnerOf (fit_of fit.now pairs.now) w }
    requires inside { e.first_modifier + e.modifiers ≤ count_of pairs.now 3 }
    ensures defined { Runs rooms result used (found_moves (book_at book pairs) (fit_at fit pairs) w.item t e) collected collected_values plain }
{
    let o = w.item;
    let category = category_at(e.category).ok_or(Refusal::Category(e.number))?;
    let on = category_on(o, category);
    if !is_used(fit, pairs, o, e, t, on) {
        return Ok(used);
    }
    if e.modifiers == 0 {
        return push_plain(plain, rooms, used, o.number, e.id);
    }
    let gives = |m| own_move(w, e, on, m);
    collect_modifiers(
        collected,
        collected_values,
        book,
        pairs,
        rooms,
        used,
        e.first_modifier,
        e.modifiers,
        gives,
    )
}

// A missing effect is passed over.
fn collect_effect(
    collected: &mut [CollectedRow],
    collected_values: &mut [f64],
    plain: &mut [PlainRow],
    book: &[u8],
    fit: &[u8],
    pairs: &TablePairs,
    places: &EffectPlaces,
    rooms: CollectedRooms,
    used: CollectedCounts,
    w: Owner,
    t: TypeDogmaEffect,
) -> Result<CollectedCounts, Refusal>
    requires lent { AllLent rooms collected.old collected_values.old plain.old }
    requires sound_book { SoundBook book.now pairs.now }
    requires sound_fit { SoundFit fit.now pairs.now }
    requires of_fit { OfFit (fit_of fit.now pairs.now) w.item }
    requires owner { OwnerOf (fit_of fit.now pairs.now) w }
    ensures defined { Runs rooms result used (effect_moves (book_at book pairs) (fit_at fit pairs) w.item t) collected collected_values plain }
{
    let Some(e) = get_dogma_effect(book, pairs, places, t.effect_id) else {
        return Ok(used);
    };
    collect_found(
        collected,
        collected_values,
        plain,
        book,
        fit,
        pairs,
        rooms,
        used,
        w,
        t,
        e,
    )
}

// Own type effects first, then base effects whose id the type lacks.
pub fn collect_effects(
    collected: &mut [CollectedRow],
    collected_values: &mut [f64],
    plain: &mut [PlainRow],
    book: &[u8],
    fit: &[u8],
    pairs: &TablePairs,
    places: &EffectPlaces,
    rooms: CollectedRooms,
    mut used: CollectedCounts,
    w: Owner,
) -> Result<CollectedCounts, Refusal>
    requires lent { AllLent rooms collected.old collected_values.old plain.old }
    requires sound_book { SoundBook book.now pairs.now }
    requires sound_fit { SoundFit fit.now pairs.now }
    requires of_fit { OfFit (fit_of fit.now pairs.now) w.item }
    requires owner { OwnerOf (fit_of fit.now pairs.now) w }
    ensures defined { Runs rooms result used (own_moves (book_at book pairs) (fit_at fit pairs) w.item) collected collected_values plain }
{
    let o = w.item;
    let own = get_dogma_effects(book, pairs, places, o.type_id);
    let base = base_effects(book, pairs, places, mutation_base(o));
    let total = own.count + base.count;
    for i in 0..total {
        let t = effect_at(book, pairs, own, base, i);
        if !is_doubled(book, pairs, own, i, t) {
            used = collect_effect(
                collected,
                collected_values,
                plain,
                book,
                fit,
                pairs,
                places,
                rooms,
                used,
                w,
                t,
            )?;
        }
    }
    Ok(used)
}
