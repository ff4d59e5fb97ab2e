// Projected objects.
ghost use Rattle.std.specs.Prelude.{◌≡◌, ◌+◌, ◌≤◌};
ghost use Rattle.std.proofs.Math.Option.{some};
ghost use Rattle.rules.specs.Bytes.{count_of};
ghost use Rattle.rules.specs.Sheet.{Fit, fit_of};
ghost use Rattle.rules.specs.Info.{get_dogma_effect};
ghost use Rattle.rules.specs.Collect.{projected_moves, named, unless_zero};
ghost use Rattle.info.specs.At.{book_at, fit_at};
ghost use Rattle.info.specs.Sound.{HeldBook, HeldFit, SoundBook, SoundFit, Based};
ghost use Rattle.modifier.specs.Tests.{OwnerOf};
ghost use Rattle.modifier.specs.Causes.{resistance_of};
ghost use Rattle.modifier.specs.Ran.{Lent, RunsCollected};
ghost use Rattle.collect.specs.OfFit.{OfFit};

use super::collecting::collect_modifiers;
use columns::{CollectedRow, EffectPlaces, TablePairs};
use info::look_ups::{get_base, get_dogma_effect};
use item::codes::category_at;
use modifier::causes::projected_move;
use modifier::codes::Owner;
use modifier::moves::{CollectedCounts, CollectedRooms};
use numbers::integers::cut;
use rules::{ATTRIBUTE_REMOTE_RESISTANCE_ID, DogmaEffect, Item, Refusal};

// An id, or what it is where it is 0: 0 is none.
fn unless_zero(id: i32, other: Option<i32>) -> Option<i32>
    ensures defined { result ≡ unless_zero id other }
{
    if id == 0 {
        return other;
    }
    Some(id)
}

// The resistance that attribute 2138 names.
fn named_resistance(fit: &[u8], pairs: &TablePairs, o: Item) -> i32
    requires held_fit { HeldFit fit.now pairs.now }
    requires based { Based (fit_of fit.now pairs.now) o }
    ensures defined { result ≡ named (fit_at fit pairs) o }
{
    match get_base(fit, pairs, o, ATTRIBUTE_REMOTE_RESISTANCE_ID) {
        Some(b) => cut(b.value),
        None => 0,
    }
}

// Attribute 2138 names it, or else the effect does.
fn get_resistance(fit: &[u8], pairs: &TablePairs, o: Item, e: DogmaEffect) -> Option<i32>
    requires held_fit { HeldFit fit.now pairs.now }
    requires based { Based (fit_of fit.now pairs.now) o }
    ensures defined { result ≡ resistance_of (fit_at fit pairs) o e }
{
    let own = e.resistance_attribute_id;
    let named = named_resistance(fit, pairs, o);
    let other = unless_zero(own, None);
    unless_zero(named, other)
}

// A projected effect that was found, against the resistance that it meets.
pub fn collect_projected_effect(
    collected: &mut [CollectedRow],
    collected_values: &mut [f64],
    book: &[u8],
    pairs: &TablePairs,
    rooms: CollectedRooms,
    used: CollectedCounts,
    w: Owner,
    e: DogmaEffect,
    resistance: Option<i32>,
) -> Result<CollectedCounts, Refusal>
    requires lent { Lent rooms collected.old collected_values.old }
    requires held_book { HeldBook book.now pairs.now }
    requires inside { e.first_modifier + e.modifiers ≤ count_of pairs.now 3 }
    ensures defined { (f : Fit) → OwnerOf f w → resistance ≡ resistance_of f w.item e → get_dogma_effect (book_at book pairs) w.item.projected_effect ≡ some e
        → RunsCollected rooms result used (projected_moves (book_at book pairs) f w.item) collected collected_values }
{
    let category = category_at(e.category).ok_or(Refusal::Category(e.number))?;
    let gives = |m| projected_move(w, e, category, resistance, m);
    collect_modifiers(
        collected,
        collected_values,
        book,
        pairs,
        rooms,
        used,
        e.first_modifier,
        e.modifiers,
        gives,
    )
}

// A projected object's one effect; a missing one is passed over.
pub fn collect_projected(
    collected: &mut [CollectedRow],
    collected_values: &mut [f64],
    book: &[u8],
    fit: &[u8],
    pairs: &TablePairs,
    places: &EffectPlaces,
    rooms: CollectedRooms,
    used: CollectedCounts,
    w: Owner,
) -> Result<CollectedCounts, Refusal>
    requires lent { Lent rooms collected.old collected_values.old }
    requires sound_book { SoundBook book.now pairs.now }
    requires sound_fit { SoundFit fit.now pairs.now }
    requires of_fit { OfFit (fit_of fit.now pairs.now) w.item }
    requires owner { OwnerOf (fit_of fit.now pairs.now) w }
    ensures defined { RunsCollected rooms result used (projected_moves (book_at book pairs) (fit_at fit pairs) w.item) collected collected_values }
{
    let o = w.item;
    let Some(e) = get_dogma_effect(book, pairs, places, o.projected_effect) else {
        return Ok(used);
    };
    let resistance = get_resistance(fit, pairs, o, e);
    collect_projected_effect(
        collected,
        collected_values,
        book,
        pairs,
        rooms,
        used,
        w,
        e,
        resistance,
    )
}
