// Whom the collected effects touch (pass_2.rs, second half): the aims of an effect, and the test of an object.
#![tactic(auto)]

ghost use Rattle.std.specs.Prelude.{◌≡◌, [], ◌<◌, ℤ, length, get_or};
ghost use Rattle.std.specs.Int.{w32};
ghost use Rattle.std.proofs.Common.{SFits};
ghost use Rattle.rules.specs.Bytes as bytes;
ghost use Rattle.rules.specs.Bytes.{count_of};
ghost use Rattle.rules.specs.Sheet.{Book, Fit, fit_of};
ghost use Rattle.rules.specs.Dispatch.{meant};
ghost use Rattle.rules.specs.Columns.{collected_numbers};
ghost use Rattle.rules.specs.declared.Pass2Effect.{Pass2Effect};
ghost use Rattle.info.specs.At.{fit_at};
ghost use Rattle.info.specs.Sound.{HeldFit, SoundFit};
ghost use Rattle.info.specs.Stands.{Stands, Pointing, Narrow};
ghost use Rattle.hits.specs.Who.{passes_by, Aims, at_location, char_items, by_skill, by_owner, alone, nobody, First, Second};

use columns::{
    COLLECTED_FUNC, COLLECTED_ORIGIN, COLLECTED_SKILL_OR_GROUP, COLLECTED_SOURCE, COLLECTED_TARGET,
    CollectedRow, TablePairs,
};
use info::little_endian::index;
use info::records::object;
use info::standing::Spans;
use numbers::integers::bits;

// What is asked of an object beside its column: nothing, a group, or a required skill, by their bits.
#[derive(Clone, Copy)]
pub enum Test {
    All,
    OfGroup(u32),
    Requiring(u32),
}

// Whom an effect touches: objects from one to another whose column is 1, and that pass the test.
#[derive(Clone, Copy)]
pub struct Aim {
    pub from: usize,
    pub end: usize,
    pub column: usize,
    pub test: Test,
}

// What reaches an object, in columns, each 0 or 1 but the last.
pub const REACH_WIDTH: usize = 8;

pub type ReachRow = [u32; REACH_WIDTH];

const IN_SHIP: usize = 0;

const WITH_CHAR: usize = 1;

const CHAR_ITEMS: usize = 2;

const SKILLED_SHIP: usize = 3;

const SKILLED_CHAR: usize = 4;

const OWNED: usize = 5;

const ANY: usize = 6;

const GROUP: usize = 7;

// The func codes that list 1, which C reads, has of modifiers (`modifier_numbers`); LocationRequiredSkillModifier's is 0.
const LOCATION_GROUP_MODIFIER: u32 = 1;

const LOCATION_MODIFIER: u32 = 2;

const OWNER_REQUIRED_SKILL_MODIFIER: u32 = 3;

const ITEM_MODIFIER: u32 = 4;

// The skills that an object requires.
pub const SKILL_WIDTH: usize = 6;

pub type SkillRow = [u64; SKILL_WIDTH];

// Marks of the skills that the objects require, by their numbers modulo 1,024.
pub const SKILL_MARKS: usize = 1024;

pub type SkillMarks = [u8; SKILL_MARKS];

// ---- the aims of an effect

// The aim at one object.
fn one(target: u32, test: Test) -> Aim
    ensures defined { result ≡ alone target test }
{
    let from = target as usize;
    Aim {
        from,
        end: from + 1,
        column: ANY,
        test,
    }
}

// The aim at nobody.
pub fn none() -> Aim
    ensures defined { result ≡ nobody }
{
    Aim {
        from: 0,
        end: 0,
        column: ANY,
        test: Test::All,
    }
}

// The aim at a location: the ship's, the char's without its items, or the object itself.
fn located(s: Spans, target: u32, test: Test) -> Aim
    ensures defined { (k : Book) (f : Fit) → Stands f s → target < length f.objects → Aims (at_location test target k f) k f result }
{
    if target == 0 {
        return Aim {
            from: 0,
            end: s.end,
            column: IN_SHIP,
            test,
        };
    }
    if target == s.character {
        return Aim {
            from: target as usize,
            end: s.objects,
            column: WITH_CHAR,
            test,
        };
    }
    one(target, test)
}

// The aim at the char's items.
fn char_items(s: Spans, test: Test) -> Aim
    ensures defined { (k : Book) (f : Fit) → Stands f s → Aims (char_items test s.character k f) k f result }
{
    Aim {
        from: s.first,
        end: s.end,
        column: CHAR_ITEMS,
        test,
    }
}

// The aim at items and charges, on the char or in the ship, that require a skill.
fn skilled(s: Spans, target: u32, test: Test) -> Aim
    ensures defined { (k : Book) (f : Fit) → Stands f s → target < length f.objects → Aims (by_skill test target k f) k f result }
{
    if target == s.character {
        return Aim {
            from: s.first,
            end: s.end,
            column: SKILLED_CHAR,
            test,
        };
    }
    Aim {
        from: s.first,
        end: s.end,
        column: SKILLED_SHIP,
        test,
    }
}

// The aim at drones, fighters and charges that require a skill. Not one function with `char_items`: each has its own word of the definition.
fn owned(s: Spans, test: Test) -> Aim
    ensures defined { (k : Book) (f : Fit) → Stands f s → Aims (by_owner test k f) k f result }
{
    Aim {
        from: s.first,
        end: s.end,
        column: OWNED,
        test,
    }
}

// The bits of the skill that effect j means: -1 is the source's own type; a buff's is 0.
fn skill_of(collected: &[CollectedRow], fit: &[u8], pairs: &TablePairs, j: usize) -> u32
    requires inside { j < length collected.now }
    requires held_fit { HeldFit fit.now pairs.now }
    requires pointing { Pointing (get_or collected.now j []) (count_of pairs.now 6) }
    ensures defined { let row = get_or collected.now j [] in
        ((t : Pass2Effect) (s : ℤ) → row ≡ collected_numbers t → get_or row 7 0 ≡ bytes.bits s → SFits w32 s
        → result ≡ bytes.bits (meant (fit_at fit pairs) t.origin s)) }
{
    let skill = collected[j][COLLECTED_SKILL_OR_GROUP];
    if skill != 4294967295 {
        return skill;
    }
    let origin = collected[j][COLLECTED_ORIGIN];
    if origin == 1 {
        return 0;
    }
    let source = object(fit, pairs, index(collected[j][COLLECTED_SOURCE]));
    bits(source.type_id)
}

// Whom effect j touches first.
pub fn aim_of(collected: &[CollectedRow], fit: &[u8], pairs: &TablePairs, s: Spans, j: usize) -> Aim
    requires inside { j < length collected.now }
    requires sound_fit { SoundFit fit.now pairs.now }
    requires pointing { Pointing (get_or collected.now j []) (count_of pairs.now 6) }
    requires standing { Stands (fit_of fit.now pairs.now) s }
    ensures first { (k : Book) (t : Pass2Effect) → get_or collected.now j [] ≡ collected_numbers t → Narrow t.modifier
        → First k (fit_at fit pairs) t result }
{
    let func = collected[j][COLLECTED_FUNC];
    let what = collected[j][COLLECTED_SKILL_OR_GROUP];
    let target = collected[j][COLLECTED_TARGET];
    if func == ITEM_MODIFIER {
        return one(target, Test::All);
    }
    if func == LOCATION_GROUP_MODIFIER {
        return located(s, target, Test::OfGroup(what));
    }
    if func == LOCATION_MODIFIER {
        return located(s, target, Test::All);
    }
    let skill = skill_of(collected, fit, pairs, j);
    if func == OWNER_REQUIRED_SKILL_MODIFIER {
        return owned(s, Test::Requiring(skill));
    }
    skilled(s, target, Test::Requiring(skill))
}

// Whom effect j touches then: the char's location has its items last.
pub fn aim_then(collected: &[CollectedRow], s: Spans, j: usize) -> Aim
    requires inside { j < length collected.now }
    ensures second { (k : Book) (f : Fit) (t : Pass2Effect) → Stands f s → t.target < length f.objects
        → get_or collected.now j [] ≡ collected_numbers t → Narrow t.modifier → Second k f t result }
{
    let func = collected[j][COLLECTED_FUNC];
    let what = collected[j][COLLECTED_SKILL_OR_GROUP];
    let target = collected[j][COLLECTED_TARGET];
    if target != s.character {
        return none();
    }
    if func == LOCATION_GROUP_MODIFIER {
        return char_items(s, Test::OfGroup(what));
    }
    if func == LOCATION_MODIFIER {
        return char_items(s, Test::All);
    }
    none()
}

// ---- the test

// Whether an aim by that column and that test is at object i, which stands in its range.
pub fn is_hit(reach: &[ReachRow], skills: &[SkillRow], column: usize, test: Test, i: usize) -> bool
    requires inside { (i < length reach.now) × (i < length skills.now) × (column < 8) }
    ensures defined { result ≡ passes_by column test (get_or reach.now i []) (get_or skills.now i []) }
{
    let reached = reach[i][column];
    if reached == 0 {
        return false;
    }
    match test {
        Test::All => true,
        Test::OfGroup(group) => reach[i][GROUP] == group,
        Test::Requiring(skill) => skills[i].contains(&u64::from(skill)),
    }
}

pub mod places;
pub mod reach;
pub mod walks;
pub mod wanted;
