// Projected buffs.
ghost use Rattle.std.specs.Prelude.{◌≡◌, ◌+◌, ◌≤◌};
ghost use Rattle.std.proofs.Math.Option.{some};
ghost use Rattle.laws.specs.Lists.{flat};
ghost use Rattle.rules.specs.Bytes.{count_of};
ghost use Rattle.rules.specs.Info.{get_dbuff_collection};
ghost use Rattle.rules.specs.Collect.{buff_moves};
ghost use Rattle.info.specs.At.{book_at, fit_at};
ghost use Rattle.info.specs.Sound.{HeldBook, HeldFit, SoundBook};
ghost use Rattle.modifier.specs.Ran.{Lent, RunsCollected};

use super::collecting::collect_modifiers;
use columns::{CollectedRow, TABLE_BUFFS, TablePairs};
use info::header::count_of;
use info::look_ups::get_dbuff_collection;
use info::records::projected_buff;
use modifier::causes::buff_move;
use modifier::codes::get_effect_operator;
use modifier::moves::{CollectedCounts, CollectedRooms};
use rules::{DbuffCollection, ProjectedBuff, Refusal};

// A buff whose collection was found: operation before any modifier.
pub fn collect_collection(
    collected: &mut [CollectedRow],
    collected_values: &mut [f64],
    book: &[u8],
    pairs: &TablePairs,
    rooms: CollectedRooms,
    used: CollectedCounts,
    b: ProjectedBuff,
    found: DbuffCollection,
) -> Result<CollectedCounts, Refusal>
    requires lent { Lent rooms collected.old collected_values.old }
    requires held_book { HeldBook book.now pairs.now }
    requires inside { found.first_modifier + found.modifiers ≤ count_of pairs.now 3 }
    ensures defined { get_dbuff_collection (book_at book pairs) b.id ≡ some found
        → RunsCollected rooms result used (buff_moves (book_at book pairs) b) collected collected_values }
{
    let Some(operator) = get_effect_operator(found.operation, found.number)? else {
        return Ok(used);
    };
    let gives = |m| buff_move(b, operator, m);
    collect_modifiers(
        collected,
        collected_values,
        book,
        pairs,
        rooms,
        used,
        found.first_modifier,
        found.modifiers,
        gives,
    )
}

// A buff; one without a collection is passed over.
fn collect_buff(
    collected: &mut [CollectedRow],
    collected_values: &mut [f64],
    book: &[u8],
    pairs: &TablePairs,
    rooms: CollectedRooms,
    used: CollectedCounts,
    b: ProjectedBuff,
) -> Result<CollectedCounts, Refusal>
    requires lent { Lent rooms collected.old collected_values.old }
    requires sound_book { SoundBook book.now pairs.now }
    ensures defined { RunsCollected rooms result used (buff_moves (book_at book pairs) b) collected collected_values }
{
    let Some(found) = get_dbuff_collection(book, pairs, b.id) else {
        return Ok(used);
    };
    collect_collection(
        collected,
        collected_values,
        book,
        pairs,
        rooms,
        used,
        b,
        found,
    )
}

// All buffs of the fit, in order.
pub fn collect_buffs(
    collected: &mut [CollectedRow],
    collected_values: &mut [f64],
    book: &[u8],
    fit: &[u8],
    pairs: &TablePairs,
    rooms: CollectedRooms,
    mut used: CollectedCounts,
) -> Result<CollectedCounts, Refusal>
    requires lent { Lent rooms collected.old collected_values.old }
    requires sound_book { SoundBook book.now pairs.now }
    requires held_fit { HeldFit fit.now pairs.now }
    ensures defined { RunsCollected rooms result used (flat (buff_moves (book_at book pairs)) (fit_at fit pairs).buffs) collected collected_values }
{
    for i in 0..count_of(pairs, TABLE_BUFFS) {
        let b = projected_buff(fit, pairs, i);
        used = collect_buff(collected, collected_values, book, pairs, rooms, used, b)?;
    }
    Ok(used)
}
