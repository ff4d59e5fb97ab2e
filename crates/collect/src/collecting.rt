// The modifiers of an effect or a buff, in order.
ghost use Rattle.std.specs.Prelude.{◌≡◌, ◌+◌, ◌≤◌, List};
ghost use Rattle.laws.specs.Lists.{flat, span};
ghost use Rattle.rules.specs.Bytes.{count_of};
ghost use Rattle.rules.specs.Collect.{Move};
ghost use Rattle.rules.specs.declared.DogmaModifier.{DogmaModifier};
ghost use Rattle.info.specs.At.{book_at};
ghost use Rattle.info.specs.Sound.{HeldBook};
ghost use Rattle.modifier.specs.Causes.{Gives};
ghost use Rattle.modifier.specs.Ran.{Lent, RunsCollected};

use columns::{CollectedRow, TablePairs};
use info::little_endian::index;
use info::records::modifier;
use modifier::moves::{CollectedCounts, CollectedRooms, push};
use rules::{DogmaModifier, Pass2Effect, Refusal};

// The modifiers of a run, in order: what each gives goes to list 1. For each way of giving it is a function of its own, put into its caller.
pub fn collect_modifiers<F: Fn(DogmaModifier) -> Result<Option<Pass2Effect>, Refusal>>(
    collected: &mut [CollectedRow],
    collected_values: &mut [f64],
    book: &[u8],
    pairs: &TablePairs,
    rooms: CollectedRooms,
    mut used: CollectedCounts,
    first: u32,
    count: u32,
    gives: F,
) -> Result<CollectedCounts, Refusal>
    requires lent { Lent rooms collected.old collected_values.old }
    requires held_book { HeldBook book.now pairs.now }
    requires inside { first + count ≤ count_of pairs.now 3 }
    requires callable { F.IsAlwaysCallable gives }
    ensures defined { let modifiers = span first count (book_at book pairs).modifiers in
        ((g : DogmaModifier → List Move) → Gives (F.post gives) g
        → RunsCollected rooms result used (flat g modifiers) collected collected_values) }
{
    let start = index(first);
    let end = start + index(count);
    for i in start..end {
        let m = modifier(book, pairs, i);
        if let Some(e) = gives(m)? {
            used = push(collected, collected_values, rooms, used, e)?;
        }
    }
    Ok(used)
}
