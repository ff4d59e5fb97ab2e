// In which order the walk goes over the rows of list 2: ship, projected, mode, char, items and charges, skills, ids ascending (pass_3.rs).
ghost use Rattle.std.specs.Prelude.{◌≡◌, true, List, ℕ, ◌≤◌, ◌<◌, length};
ghost use Rattle.rules.specs.Sheet.{fit_of};
ghost use Rattle.rules.specs.Item.{char_of};
ghost use Rattle.rules.specs.Dispatch.{Row};
ghost use Rattle.info.specs.Sound.{SoundFit};
ghost use Rattle.reading.specs.Held.{RowsHeld};
ghost use Rattle.reading.specs.Order.{rows_below, projected_end, walked_at, Ordered, owned, TurnsOf};

use columns::{AttributeRow, ROW_OBJECT, TABLE_OBJECTS, TablePairs};
use info::header::count_of;
use info::records::object;
use info::standing::char_of;
use rules::PROJECTED;

// How many rows there are up to the ship's last, the char's last and the last projected one's.
#[derive(Clone, Copy)]
pub struct Turns {
    pub ship: usize,
    pub character: usize,
    pub projected: usize,
}

// How many rows are of objects below one: rows ascend by object.
fn rows_below(rows: &[AttributeRow], object: u32) -> usize
    ensures counted { (rs : List Row) → RowsHeld rs rows.now → result ≡ rows_below object rs }
{
    rows.partition_point(|row| row[ROW_OBJECT] < object)
}

// The number just past the last projected one: they stand right after the char.
fn projected_end(fit: &[u8], pairs: &TablePairs, character: u32) -> u32
    requires sound { SoundFit fit.now pairs.now }
    requires the_char { character ≡ char_of (fit_of fit.now pairs.now) }
    ensures defined { result ≡ projected_end (fit_of fit.now pairs.now) }
{
    let objects = count_of(pairs, TABLE_OBJECTS);
    for i in character as usize + 1..objects {
        let o = object(fit, pairs, i);
        if o.kind != PROJECTED {
            return i as u32;
        }
    }
    objects as u32
}

// Where the walk leaves the order of the rows, and where it takes it up again.
pub fn turns_of(rows: &[AttributeRow], fit: &[u8], pairs: &TablePairs) -> Turns
    requires sound { SoundFit fit.now pairs.now }
    ensures in_order { let f = fit_of fit.now pairs.now in
        ((rs : List Row) → RowsHeld rs rows.now → owned (length f.objects) rs ≡ true → TurnsOf f rs result) }
{
    let character = char_of(fit, pairs);
    let end = projected_end(fit, pairs, character);
    Turns {
        ship: rows_below(rows, 1),
        character: rows_below(rows, character + 1),
        projected: rows_below(rows, end),
    }
}

// The row that a turn is at: the ship's, the projected ones', those of mode and char, then the rest.
pub fn walked(turns: Turns, turn: usize) -> usize
    requires ordered { Ordered turns }
    ensures defined { (result ≡ walked_at turns turn) × ((n : ℕ) → turns.projected ≤ n → turn < n → result < n) }
{
    if (turn < turns.ship) | (turns.projected <= turn) {
        return turn;
    }
    let projected = turns.projected - turns.character;
    if turn < turns.ship + projected {
        return turn - turns.ship + turns.character;
    }
    turn - projected
}
