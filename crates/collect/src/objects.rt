// The objects in phases, the buffs between them, and collection as a whole.
ghost use Rattle.std.specs.Prelude.{◌≡◌, ◌++◌, ◌+◌, ◌≤◌, length};
ghost use Rattle.rules.specs.Sheet.{book_of, fit_of};
ghost use Rattle.rules.specs.Collect.{moves};
ghost use Rattle.rules.specs.Outcome as outcome;
ghost use Rattle.info.specs.At.{book_at, fit_at};
ghost use Rattle.info.specs.Sound.{SoundBook, SoundFit};
ghost use Rattle.modifier.specs.Ran.{AllLent, Runs};
ghost use Rattle.collect.specs.At.{Collects};
ghost use Rattle.collect.specs.OfFit.{OfFit};
ghost use Rattle.collect.specs.Parts.{HullOf, SkillsFrom, Ranged, in_phase, object_moves, all_of, rest_of};

use super::buffs::collect_buffs;
use super::effects::collect_effects;
use super::owners::{hull_of, owner_of};
use super::projected::collect_projected;
use super::{Hull, Phase};
use columns::{CollectedRow, EffectPlaces, PlainRow, TABLE_OBJECTS, TablePairs};
use info::header::count_of;
use info::records::object;
use info::standing::spans_of;
use item::kinds::{is_charge, is_item, is_projected, is_skill};
use modifier::moves::{CollectedCounts, CollectedRooms};
use rules::{CHAR, Item, Refusal};
use states::is_passed_over;

// Whether an object is collected in a phase.
fn in_phase(phase: Phase, o: Item) -> bool
    ensures defined { result ≡ in_phase phase o }
{
    match phase {
        Phase::Front => o.kind <= CHAR,
        Phase::Projected => is_projected(o),
        Phase::Fitted => is_item(o) | is_charge(o),
        Phase::Skills => is_skill(o),
    }
}

// One object in a phase. An item that is passed over gives nothing, and its charge neither.
fn collect_object(
    collected: &mut [CollectedRow],
    collected_values: &mut [f64],
    plain: &mut [PlainRow],
    book: &[u8],
    fit: &[u8],
    pairs: &TablePairs,
    places: &EffectPlaces,
    rooms: CollectedRooms,
    used: CollectedCounts,
    hull: Hull,
    phase: Phase,
    o: Item,
) -> Result<CollectedCounts, Refusal>
    requires lent { AllLent rooms collected.old collected_values.old plain.old }
    requires sound_book { SoundBook book.now pairs.now }
    requires sound_fit { SoundFit fit.now pairs.now }
    requires hull_of_fit { HullOf (book_of book.now pairs.now) (fit_of fit.now pairs.now) hull }
    requires of_fit { OfFit (fit_of fit.now pairs.now) o }
    ensures defined { Runs rooms result used (object_moves (book_at book pairs) (fit_at fit pairs) phase o) collected collected_values plain }
{
    if !in_phase(phase, o) {
        return Ok(used);
    }
    let over = is_passed_over(fit, pairs, hull.categories, hull.structure, o);
    if over {
        return Ok(used);
    }
    let w = owner_of(fit, pairs, hull, o);
    if is_projected(o) {
        return collect_projected(
            collected,
            collected_values,
            book,
            fit,
            pairs,
            places,
            rooms,
            used,
            w,
        );
    }
    collect_effects(
        collected,
        collected_values,
        plain,
        book,
        fit,
        pairs,
        places,
        rooms,
        used,
        w,
    )
}

// All objects of a phase, in order: none stands outside the range.
fn collect_objects(
    collected: &mut [CollectedRow],
    collected_values: &mut [f64],
    plain: &mut [PlainRow],
    book: &[u8],
    fit: &[u8],
    pairs: &TablePairs,
    places: &EffectPlaces,
    rooms: CollectedRooms,
    mut used: CollectedCounts,
    hull: Hull,
    phase: Phase,
    first: usize,
    end: usize,
) -> Result<CollectedCounts, Refusal>
    requires lent { AllLent rooms collected.old collected_values.old plain.old }
    requires sound_book { SoundBook book.now pairs.now }
    requires sound_fit { SoundFit fit.now pairs.now }
    requires hull_of_fit { HullOf (book_of book.now pairs.now) (fit_of fit.now pairs.now) hull }
    requires ranged { Ranged (fit_of fit.now pairs.now) phase first end }
    ensures defined { Runs rooms result used (all_of (book_at book pairs) (fit_at fit pairs) phase) collected collected_values plain }
{
    for i in first..end {
        let o = object(fit, pairs, i);
        used = collect_object(
            collected,
            collected_values,
            plain,
            book,
            fit,
            pairs,
            places,
            rooms,
            used,
            hull,
            phase,
            o,
        )?;
    }
    Ok(used)
}

// Two phases, one after the other: the early one before the skills, the late one in its range.
fn collect_phases(
    collected: &mut [CollectedRow],
    collected_values: &mut [f64],
    plain: &mut [PlainRow],
    book: &[u8],
    fit: &[u8],
    pairs: &TablePairs,
    places: &EffectPlaces,
    rooms: CollectedRooms,
    used: CollectedCounts,
    hull: Hull,
    early: Phase,
    late: Phase,
    skills: usize,
    first: usize,
    end: usize,
) -> Result<CollectedCounts, Refusal>
    requires lent { AllLent rooms collected.old collected_values.old plain.old }
    requires sound_book { SoundBook book.now pairs.now }
    requires sound_fit { SoundFit fit.now pairs.now }
    requires hull_of_fit { HullOf (book_of book.now pairs.now) (fit_of fit.now pairs.now) hull }
    requires ranged { (Ranged (fit_of fit.now pairs.now) early 0 skills) × (Ranged (fit_of fit.now pairs.now) late first end) }
    ensures defined { let both = all_of (book_at book pairs) (fit_at fit pairs) early ++ all_of (book_at book pairs) (fit_at fit pairs) late in
        Runs rooms result used both collected collected_values plain }
{
    let used = collect_objects(
        collected,
        collected_values,
        plain,
        book,
        fit,
        pairs,
        places,
        rooms,
        used,
        hull,
        early,
        0,
        skills,
    )?;
    collect_objects(
        collected,
        collected_values,
        plain,
        book,
        fit,
        pairs,
        places,
        rooms,
        used,
        hull,
        late,
        first,
        end,
    )
}

// The buffs, items each with its charge, and skills.
fn collect_rest(
    collected: &mut [CollectedRow],
    collected_values: &mut [f64],
    plain: &mut [PlainRow],
    book: &[u8],
    fit: &[u8],
    pairs: &TablePairs,
    places: &EffectPlaces,
    rooms: CollectedRooms,
    used: CollectedCounts,
    hull: Hull,
    skills: usize,
) -> Result<CollectedCounts, Refusal>
    requires lent { AllLent rooms collected.old collected_values.old plain.old }
    requires sound_book { SoundBook book.now pairs.now }
    requires sound_fit { SoundFit fit.now pairs.now }
    requires hull_of_fit { HullOf (book_of book.now pairs.now) (fit_of fit.now pairs.now) hull }
    requires skills_last { SkillsFrom (fit_of fit.now pairs.now) skills }
    ensures defined { Runs rooms result used (rest_of (book_at book pairs) (fit_at fit pairs)) collected collected_values plain }
{
    let used = collect_buffs(collected, collected_values, book, fit, pairs, rooms, used)?;
    collect_phases(
        collected,
        collected_values,
        plain,
        book,
        fit,
        pairs,
        places,
        rooms,
        used,
        hull,
        Phase::Fitted,
        Phase::Skills,
        skills,
        skills,
        count_of(pairs, TABLE_OBJECTS),
    )
}

// Collection of a sound sheet into lists 1 and 4. After a refusal the columns may hold anything: who lent them clears them.
pub fn collect(
    collected: &mut [CollectedRow],
    collected_values: &mut [f64],
    plain: &mut [PlainRow],
    book: &[u8],
    fit: &[u8],
    pairs: &TablePairs,
    places: &EffectPlaces,
    room: usize,
    room_plain: usize,
) -> Result<CollectedCounts, Refusal>
    requires inside { (room ≤ length collected.old) × (room ≤ length collected_values.old) }
    requires plain_inside { room_plain ≤ length plain.old }
    requires sound_book { SoundBook book.now pairs.now }
    requires sound_fit { SoundFit fit.now pairs.now }
    ensures defined { (q : outcome.Rooms) → q.collected ≡ room → q.plain ≡ room_plain
        → Collects q result (moves (book_at book pairs) (fit_at fit pairs)) collected collected_values plain }
{
    let rooms = CollectedRooms {
        collected: room,
        plain: room_plain,
    };
    let hull = hull_of(book, fit, pairs);
    let skills = spans_of(fit, pairs).end;
    let none = CollectedCounts {
        collected: 0,
        plain: 0,
    };
    let used = collect_phases(
        collected,
        collected_values,
        plain,
        book,
        fit,
        pairs,
        places,
        rooms,
        none,
        hull,
        Phase::Front,
        Phase::Projected,
        skills,
        0,
        skills,
    )?;
    collect_rest(
        collected,
        collected_values,
        plain,
        book,
        fit,
        pairs,
        places,
        rooms,
        used,
        hull,
        skills,
    )
}
