// Where the objects of a sound sheet stand.
ghost use Rattle.std.specs.Prelude.{◌≡◌, ◌≤◌};
ghost use Rattle.rules.specs.Bytes.{count_of};
ghost use Rattle.rules.specs.Item.{char_of};
ghost use Rattle.info.specs.At.{fit_at};
ghost use Rattle.info.specs.Sound.{HeldFit, SoundFit};
ghost use Rattle.info.specs.Stands.{FirstSkill, Stands};

use super::header::count_of;
use super::records::object;
use columns::TablePairs;
use rules::{CHAR, SKILL};

// Where objects stand: the char, the items and charges from first to end, all objects.
#[derive(Clone, Copy)]
pub struct Spans {
    pub character: u32,
    pub first: usize,
    pub end: usize,
    pub objects: usize,
}

// The char's number: it stands right after the ship or its mode.
pub fn char_of(fit: &[u8], pairs: &TablePairs) -> u32
    requires sound_fit { SoundFit fit.now pairs.now }
    ensures defined { result ≡ char_of (fit_at fit pairs) }
{
    let next = object(fit, pairs, 1);
    if next.kind == CHAR {
        return 1;
    }
    2
}

// The first skill from one object on: skills stand last.
fn first_skill(fit: &[u8], pairs: &TablePairs, from: usize) -> usize
    requires held_fit { HeldFit fit.now pairs.now }
    requires a_number { from ≤ count_of pairs.now 6 }
    ensures defined { FirstSkill (fit_at fit pairs) from result }
{
    let objects = count_of(pairs, 6);
    for i in from..objects {
        let o = object(fit, pairs, i);
        if o.kind == SKILL {
            return i;
        }
    }
    objects
}

// Where the char, the items and charges, and the skills of a sound sheet stand.
pub fn spans_of(fit: &[u8], pairs: &TablePairs) -> Spans
    requires sound_fit { SoundFit fit.now pairs.now }
    ensures standing { Stands (fit_at fit pairs) result }
{
    let character = char_of(fit, pairs);
    let first = character as usize + 1;
    let end = first_skill(fit, pairs, first);
    let objects = count_of(pairs, 6);
    Spans {
        character,
        first,
        end,
        objects,
    }
}
