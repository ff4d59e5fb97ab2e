// Maps of who matches (M-108): bits over the objects, 64 to a word, one map for each location, for each required skill and for each group.
#![tactic(auto)]

ghost use Rattle.std.specs.Prelude.{◌≡◌, Bool, List, ℕ, ◌+◌, ◌*◌, ◌≤◌, ◌<◌, ◌^◌, length, replicate};
ghost use Rattle.maps.specs.Words.{ones_cut};
ghost use Rattle.maps.specs.Keys.{group_key, head_at, width_of};
ghost use Rattle.maps.specs.Maps.{Mapped, Holding, Found, Zeroed};

// Which maps have keys of a residue: the last of them, by its number plus 1.
pub const MAP_HEADS: usize = 1024;

// Below a map's head: its key; above: the map before it of the same residue.
pub const KEYS: u64 = 17179869184;

// How many words a map of so many objects has.
pub fn width_of(objects: usize) -> usize
    requires inside { objects ≤ 1024 }
    ensures defined { result ≡ width_of objects }
{
    (objects + 63) / 64
}

// The key of a group: above all skills.
pub fn group_key(group: u32) -> u64
    ensures defined { result ≡ group_key group }
    ensures small { result < 17179869184 }
{
    4294967297 + group as u64
}

// Where the head of map m stands.
pub fn head_of(width: usize, m: usize) -> usize
    requires small { (width ≤ 16) × (m ≤ 7168) }
    ensures defined { result ≡ head_at width m }
{
    6 * width + m * (width + 1)
}

// The map of a key, by its number.
pub fn find(words: &[u64], heads: &[u32], width: usize, key: u64) -> Option<usize>
    requires maps { Holding width words.now heads.now }
    ensures found { (location has : ℕ → ℕ → Bool) (ks : List ℕ) → Mapped width location has ks words.now heads.now → Found ks key result }
{
    let slot = (key % 1024) as usize;
    let last = heads[slot];
    let mut m = last as usize;
    // a while: from a map to the one before it of the same residue, by their numbers plus 1, as the heads have them
    while m != 0 {
        let head = words[head_of(width, m - 1)];
        if head % KEYS == key {
            return Some(m - 1);
        }
        m = (head / KEYS) as usize;
    }
    None
}

// Two stretches of so many words: what a location lets in, and what passes a test.
#[derive(Clone, Copy)]
pub struct Cut {
    pub location: usize,
    pub test: usize,
    pub words: usize,
}

// How many entries an effect adds: the ones that both stretches have.
pub fn entries_added(words: &[u64], c: Cut) -> usize
    requires inside { (c.location + c.words ≤ length words.now) × (c.test + c.words ≤ length words.now) × (c.words ≤ 16) }
    ensures defined { result ≡ ones_cut words.now c.location c.test c.words }
{
    let a = c.location;
    let b = c.test;
    let n = c.words;
    let mut total: usize = 0;
    for w in 0..n {
        let x = words[a + w];
        let y = words[b + w];
        let cut = x & y;
        let ones = u64::count_ones(cut);
        total += ones as usize;
    }
    total
}

// So many words from a place on are zero.
pub fn clear_map(words: &mut [u64], at: usize, n: usize)
    requires inside { at + n ≤ length words.old }
    ensures cleared { Zeroed at n words.old words.new }
{
    words[at..at + n].fill(0);
}

// All words are zero.
pub fn clear_words(words: &mut [u64])
    ensures cleared { words.new ≡ replicate (length words.old) 0 }
{
    words.fill(0);
}

pub mod build;
