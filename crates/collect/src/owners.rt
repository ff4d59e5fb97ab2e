// An object with what of the fit its modifiers go by.
ghost use Rattle.std.specs.Prelude.{◌≡◌, suc, ◌+◌, ◌≤◌, length};
ghost use Rattle.rules.specs.Bytes.{categories_at};
ghost use Rattle.rules.specs.Sheet.{Book, fit_of};
ghost use Rattle.rules.specs.Item.{is_charge};
ghost use Rattle.info.specs.At.{book_at, fit_at, object_at};
ghost use Rattle.info.specs.Sound.{HeldFit, SoundFit};
ghost use Rattle.modifier.specs.Tests.{OwnerOf, WholeOwnerOf, charge_in};
ghost use Rattle.collect.specs.OfFit.{OfFit};
ghost use Rattle.collect.specs.Parts.{HullOf};

use super::Hull;
use columns::{TABLE_OBJECTS, TablePairs};
use info::header::count_of;
use info::little_endian::index;
use info::records::object;
use info::standing::char_of;
use item::categories::categories_of;
use item::kinds::is_charge;
use modifier::codes::Owner;
use rules::Item;
use states::is_structure_fit;

// What of the fit all its objects go by.
pub fn hull_of(book: &[u8], fit: &[u8], pairs: &TablePairs) -> Hull
    requires inside { categories_at pairs.now + 12 ≤ length book.now }
    requires sound_fit { SoundFit fit.now pairs.now }
    ensures of_the_fit { HullOf (book_at book pairs) (fit_at fit pairs) result }
{
    Hull {
        categories: categories_of(book, pairs),
        structure: is_structure_fit(fit, pairs),
        character: char_of(fit, pairs),
    }
}

// Whether a charge stands right after an object.
fn is_charged(fit: &[u8], pairs: &TablePairs, number: u32) -> bool
    requires held_fit { HeldFit fit.now pairs.now }
    ensures defined { result ≡ is_charge (object_at fit pairs (suc number)) }
{
    let next = index(number) + 1;
    next < count_of(pairs, TABLE_OBJECTS) && is_charge(object(fit, pairs, next))
}

// The charge right after an object, where there is one.
fn charge_of(fit: &[u8], pairs: &TablePairs, o: Item) -> Option<u32>
    requires held_fit { HeldFit fit.now pairs.now }
    requires of_fit { OfFit (fit_of fit.now pairs.now) o }
    ensures defined { result ≡ charge_in (fit_at fit pairs) o }
{
    is_charged(fit, pairs, o.number).then_some(o.number + 1)
}

// An object with what of the fit its modifiers go by.
pub fn owner_of(fit: &[u8], pairs: &TablePairs, hull: Hull, o: Item) -> Owner
    requires held_fit { HeldFit fit.now pairs.now }
    requires of_fit { OfFit (fit_of fit.now pairs.now) o }
    ensures of_the_fit { ((k : Book) → HullOf k (fit_at fit pairs) hull → OwnerOf (fit_at fit pairs) result) × (result.item ≡ o) }
    ensures whole { (k : Book) → HullOf k (fit_at fit pairs) hull → WholeOwnerOf (fit_at fit pairs) result }
{
    Owner {
        item: o,
        charge: charge_of(fit, pairs, o),
        before: o.number.saturating_sub(1),
        structure: hull.structure,
        character: hull.character,
    }
}
