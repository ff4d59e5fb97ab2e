// What a fit has of what an organiser's lines count: the pieces of a type, or in a group.
#![tactic(auto)]

ghost use Rattle.std.specs.Prelude.{◌≡◌, false, cond, map, ℕ, ◌≤◌, ◌<◌, eqb, length, get_or, replicate};
ghost use Rattle.rules.specs.Sheet.{Book, book_of, fit_of};
ghost use Rattle.info.specs.At.{book_at, fit_at, objects_at};
ghost use Rattle.info.specs.Sound.{HeldBook, HeldFit};
ghost use Rattle.item.specs.Categories.{CategoriesOf};
ghost use Rattle.tallies.specs.Tallies.{line_of, counts, counted};
ghost use Rattle.tallies.specs.Blocks.{Ordered, line_key, Laid, Keyed, Spanned, Bounds, Added, Counted, Summed, Told};

use columns::{TABLE_OBJECTS, TablePairs};
use info::header::count_of;
use info::records::object;
use item::categories::categories_of;
use item::kinds::is_item;
use item::locations::{Categories, is_calculated};
use laws::step;
use numbers::integers::{bits, signed};
use rules::Item;

// A line of an organiser's table: kind, id and number.
pub const RULE_WIDTH: usize = 3;

pub type RuleLine = [u32; RULE_WIDTH];

pub const RULE_KIND: usize = 0;

pub const RULE_ID: usize = 1;

pub const RULE_NUMBER: usize = 2;

// The kinds of lines, as C lends them: points of a type, most pieces of a group, a forbidden group, the total.
pub const RULE_POINTS: u32 = 0;

pub const RULE_MOST: u32 = 1;

pub const RULE_FORBIDDEN: u32 = 2;

pub const RULE_TOTAL: u32 = 3;

// The places of a block of lines, and the most lines in it: the last place is no line's.
pub const PLACES: usize = 1024;

const BLOCK_LINES: usize = 1023;

// The keys of a block's lines, which ascend, and behind them the highest.
pub type Keys = [u64; PLACES];

const HIGHEST_KEY: u64 = 18446744073709551615;

// Of each line of a block the pieces that it counts.
pub type Sums = [u64; PLACES];

// Whether an object is counted: a calculated item, and never a charge or a skill.
fn is_counted(c: Categories, o: Item) -> bool
    ensures defined { (k : Book) → CategoriesOf k c → result ≡ counts k o }
{
    let item = is_item(o);
    item & is_calculated(c, o)
}

// So many where the test passed, else none: `laws::step` of 64 bits, whose contract a number type as parameter would not say.
fn many(passed: bool, n: u64) -> u64
    ensures defined { result ≡ cond passed n 0 }
    ensures at_most { result ≤ n }
{
    if passed { n } else { 0 }
}

// The pieces of an object: its quantity where it is counted, else none.
fn pieces(c: Categories, o: Item) -> u64
    ensures defined { (k : Book) → CategoriesOf k c → result ≡ cond (counts k o) o.quantity 0 }
    ensures at_most { result ≤ 4294967295 }
{
    let own = is_counted(c, o);
    many(own, o.quantity as u64)
}

// Where a line stands among all others, by kind and id: lines ascend as their keys do.
fn line_key(kind: u32, id: i32) -> u64
    ensures defined { result ≡ line_key kind id }
{
    let low = bits(id) as u64;
    let rank = (low + 2147483648) % 4294967296;
    (kind as u64) * 4294967296 + rank
}

// The keys of the lines from the first on, at most 1,023. How many they are.
fn lay(keys: &mut Keys, lines: &[RuleLine], first: usize) -> usize
    requires none_yet { Laid (map line_of lines.now) first 0 keys.old }
    requires inside { first < length lines.now }
    ensures laid { Laid (map line_of lines.now) first result keys.new }
    ensures some { 0 < result }
{
    let n = BLOCK_LINES.min(lines.len() - first);
    for i in 0..n {
        let line = lines[first + i];
        keys[i] = line_key(line[RULE_KIND], signed(line[RULE_ID]));
    }
    n
}

// The first place whose key is not less than this one: of what is left a half at a time, without a branch.
fn place(keys: &Keys, key: u64) -> usize
    requires keyed { Keyed keys.now }
    requires below { key < 18446744073709551615 }
    ensures defined { Bounds keys.now key result result }
    ensures inside { result < 1024 }
{
    let mut low = 0;
    let mut left = PLACES;
    // A while: the library's partition_point, proved too, branches at each half, and takes 2.2 times the time on 1,000 lines of random ids.
    while 1 < left {
        let half = left / 2;
        let own = keys[low + half - 1];
        low = low + step(half, own < key);
        left -= half;
    }
    low
}

// Adds pieces to the sum of the line with this key, where there is one; it is sought where it may be there.
fn add(sums: &mut Sums, keys: &Keys, sought: bool, key: u64, more: u64)
    requires keyed { Keyed keys.now }
    requires below { key < 18446744073709551615 }
    requires absent { sought ≡ false → (j : ℕ) → j < 1024 → eqb (get_or keys.now j 0) key ≡ false }
    requires small { (j : ℕ) → j < 1024 → get_or sums.old j 0 ≤ 4611686018427387904 }
    requires few { more ≤ 4294967295 }
    ensures added { Added keys.now key more sums.old sums.new }
{
    if sought {
        let at = place(keys, key);
        let own = keys[at];
        let before = sums[at];
        sums[at] = before + many(own == key, more);
    }
}

// Adds an object's pieces to the sum of each line that counts it: a price by its type, a cap and a forbidden group by its group.
fn add_object(sums: &mut Sums, keys: &Keys, least: u32, most: u32, o: Item, more: u64)
    requires keyed { Keyed keys.now }
    requires spanned { Spanned keys.now least most }
    requires small { (j : ℕ) → j < 1024 → get_or sums.old j 0 ≤ 4398046510080 }
    requires long { length sums.old ≡ 1024 }
    requires few { more ≤ 4294967295 }
    ensures counted { Counted keys.now o more sums.old sums.new }
{
    let price = line_key(RULE_POINTS, o.type_id);
    let cap = line_key(RULE_MOST, o.group_id);
    let forbidden = line_key(RULE_FORBIDDEN, o.group_id);
    add(sums, keys, least <= RULE_POINTS, price, more);
    add(
        sums,
        keys,
        (least <= RULE_MOST) & (RULE_MOST <= most),
        cap,
        more,
    );
    add(sums, keys, RULE_FORBIDDEN <= most, forbidden, more);
}

// Of each line of a block the pieces that it counts; all but totals are of the kinds from one to another.
fn count(
    sums: &mut Sums,
    keys: &Keys,
    least: u32,
    most: u32,
    book: &[u8],
    fit: &[u8],
    pairs: &TablePairs,
)
    requires keyed { Keyed keys.now }
    requires spanned { Spanned keys.now least most }
    requires held_book { HeldBook book.now pairs.now }
    requires held_fit { HeldFit fit.now pairs.now }
    requires none_yet { Summed (book_of book.now pairs.now) (fit_of fit.now pairs.now) keys.now 0 sums.old }
    ensures counted { Summed (book_at book pairs) (fit_at fit pairs) keys.now (objects_at pairs) sums.new }
{
    let c = categories_of(book, pairs);
    let n = count_of(pairs, TABLE_OBJECTS);
    for i in 0..n {
        let o = object(fit, pairs, i);
        let more = pieces(c, o);
        if 0 < more {
            add_object(sums, keys, least, most, o, more);
        }
    }
}

// The sums of the block of lines that starts here, into a table that is lent; a total has none. How many lines it has.
pub fn tallied(
    sums: &mut Sums,
    lines: &[RuleLine],
    first: usize,
    book: &[u8],
    fit: &[u8],
    pairs: &TablePairs,
) -> usize
    requires ordered { Ordered (map line_of lines.now) }
    requires inside { first < length lines.now }
    requires held_book { HeldBook book.now pairs.now }
    requires held_fit { HeldFit fit.now pairs.now }
    requires none_yet { sums.old ≡ replicate 1024 0 }
    ensures told { Told (map line_of lines.now) (counted (book_at book pairs) (fit_at fit pairs)) first result sums.new }
{
    let mut keys = [HIGHEST_KEY; PLACES];
    let n = lay(&mut keys, lines, first);
    let last = lines[first + n - 1][RULE_KIND];
    let end = first + n - step(1, (last == RULE_TOTAL) & (1 < n));
    let least = lines[first][RULE_KIND];
    let most = lines[end - 1][RULE_KIND];
    count(sums, &keys, least, most, book, fit, pairs);
    n
}
