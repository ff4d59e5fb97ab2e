// Source rows take room when they arise.
ghost use Rattle.std.specs.Prelude.{◌≡◌, ◌≤◌, min, length};
ghost use Rattle.rules.specs.Value as values;
ghost use Rattle.sources.specs.Keeping.{NotesGive, Advanced, notes, penalised_notes, penalised_count};

use super::rows::{put_source, to_source};
use super::{Recording, SourceCounts};
use columns::{SourceFloats, SourceRow};
use rules::{Effect, Refusal, Source};

// A source row more of the row whose places begin at first, where source rows are recorded.
pub fn note(
    sources: &mut [SourceRow],
    floats: &mut [SourceFloats],
    run: Recording,
    first: u32,
    s: Source,
    counts: SourceCounts,
) -> Result<SourceCounts, Refusal>
    requires roomy { (run.room ≤ length sources.old) × (run.room ≤ length floats.old) × (counts.own ≤ counts.used) }
    ensures defined { NotesGive run first counts 1 sources floats result (λ w i row. values.note w i row s) }
    ensures advanced { Advanced run.recording 1 counts result }
{
    if !run.recording {
        return Ok(counts);
    }
    if run.room <= counts.used {
        return Err(Refusal::Room(5));
    }
    let place = first as usize + counts.own as usize;
    put_source(sources, floats, run, place, s);
    Ok(SourceCounts {
        own: counts.own + 1,
        used: counts.used + 1,
    })
}

// The same source row so many times.
fn note_copies(
    sources: &mut [SourceRow],
    floats: &mut [SourceFloats],
    run: Recording,
    first: u32,
    s: Source,
    copies: u32,
    counts: SourceCounts,
) -> Result<SourceCounts, Refusal>
    requires roomy { (run.room ≤ length sources.old) × (run.room ≤ length floats.old) × (counts.own ≤ counts.used) }
    ensures defined { NotesGive run first counts copies sources floats result (λ w i row. notes w i row copies s) }
    ensures advanced { Advanced run.recording copies counts result }
{
    let mut now = counts;
    for _n in 0..copies {
        now = note(sources, floats, run, first, s, now)?;
    }
    Ok(now)
}

// How many copies of a quantity are weighed, and have a source row of their own.
pub fn kept(quantity: u32) -> u32
    ensures defined { result ≡ min quantity 8 }
{
    quantity.min(8)
}

// The source rows of a penalised entry that runs.
pub fn note_penalised(
    sources: &mut [SourceRow],
    floats: &mut [SourceFloats],
    run: Recording,
    first: u32,
    e: Effect,
    strength: f64,
    counts: SourceCounts,
) -> Result<SourceCounts, Refusal>
    requires roomy { (run.room ≤ length sources.old) × (run.room ≤ length floats.old) × (counts.own ≤ counts.used) }
    ensures defined { NotesGive run first counts (penalised_count e.quantity) sources floats result (λ w i row. penalised_notes w i row e strength) }
    ensures advanced { Advanced run.recording (penalised_count e.quantity) counts result }
{
    let quantity = e.quantity;
    let one = to_source(e, strength, true, 1, true);
    let copies = kept(quantity);
    let copied = note_copies(sources, floats, run, first, one, copies, counts)?;
    if quantity <= 8 {
        return Ok(copied);
    }
    let rest = to_source(e, strength, true, quantity - 8, true);
    note(sources, floats, run, first, rest, copied)
}
