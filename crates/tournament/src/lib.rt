// A fit checked against an organiser's lines: allowed, or the first broken line and the count that broke it.
#![tactic(auto)]

ghost use Rattle.std.specs.Prelude.{◌≡◌, cond, [], map, ◌*◌, ◌≤◌, ◌<◌, ◌^◌, List, eqb, length, get_or};
ghost use Rattle.std.proofs.Math.Option.{none};
ghost use Rattle.rules.specs.Sheet.{book_of, fit_of};
ghost use Rattle.rules.specs.declared.Item.{Item};
ghost use Rattle.info.specs.At.{book_at, fit_at};
ghost use Rattle.info.specs.Sound.{HeldBook, HeldFit};
ghost use Rattle.tallies.specs.Tallies.{line_of, counted};
ghost use Rattle.tallies.specs.Tallies as tallied;
ghost use Rattle.tallies.specs.Blocks.{Ordered, Told};
ghost use Rattle.tournament.specs.Tournament as rule;
ghost use Rattle.tournament.specs.Answered.{bad_line, broken_of, verdict_of, answer_of, line_before, Reached, Passed};
ghost use Rattle.tournament.specs.declared.NotAllowed.TheVariants.{Shape, Rules, Breaks};

use columns::TablePairs;
use files::{files_shape, pairs_in};
use info::header::pairs_of;
use numbers::integers::signed;
use shape::{BadTable, shape};
use tallies::{
    PLACES, RULE_FORBIDDEN, RULE_ID, RULE_KIND, RULE_NUMBER, RULE_POINTS, RULE_TOTAL, RuleLine,
    Sums, tallied,
};

// The most points of one piece.
const MOST_POINTS: u32 = 65535;

// The numbers of the refusals, as C has them.
const SHAPE: u64 = 1;

const RULES: u64 = 11;

// The first bad line of a table.
#[derive(Clone, Copy)]
struct BadLine {
    line: usize,
}

// The first broken line, and the count that broke it.
#[derive(Clone, Copy)]
struct Broken {
    line: usize,
    count: u64,
}

// Why a fit is not allowed: the bad table of the records, the bad line, or the broken one.
#[derive(Clone, Copy)]
enum NotAllowed {
    Shape(BadTable),
    Rules(BadLine),
    Breaks(Broken),
}

impl From<BadTable> for NotAllowed {
    ghost from_gives = { λ bad reason. reason ≡ Shape bad };

    fn from(bad: BadTable) -> NotAllowed {
        NotAllowed::Shape(bad)
    }
}

impl From<BadLine> for NotAllowed {
    ghost from_gives = { λ bad reason. reason ≡ Rules bad };

    fn from(bad: BadLine) -> NotAllowed {
        NotAllowed::Rules(bad)
    }
}

impl From<Broken> for NotAllowed {
    ghost from_gives = { λ broken reason. reason ≡ Breaks broken };

    fn from(broken: Broken) -> NotAllowed {
        NotAllowed::Breaks(broken)
    }
}

// The lines before the next one hold, and give so many points.
#[derive(Clone, Copy)]
struct Walked {
    points: u64,
    next: usize,
}

// What comes back of a check.
#[repr(C)]
#[derive(Clone, Copy)]
pub struct Checked {
    pub number: u64,
    pub place: u64,
    pub allowed: u64,
    pub line: u64,
    pub count: u64,
}

// Whether a line comes strictly after another, by kind and id.
fn rises(last: RuleLine, line: RuleLine) -> bool
    ensures defined { result ≡ tallied.rises (line_of last) (line_of line) }
{
    let before = signed(last[RULE_ID]);
    let own = signed(line[RULE_ID]);
    (last[RULE_KIND] < line[RULE_KIND]) | ((last[RULE_KIND] == line[RULE_KIND]) & (before < own))
}

// Whether line i comes strictly after the one before it.
fn stands(lines: &[RuleLine], i: usize) -> bool
    requires inside { i < length lines.now }
    ensures defined { let ls = map line_of lines.now in
        result ≡ rule.stands_after (line_before ls i) (line_of (get_or lines.now i [])) }
{
    if i == 0 {
        return true;
    }
    rises(lines[i - 1], lines[i])
}

// Whether a line is good by itself: a known kind, points at most 65,535, a total of id 0.
fn line_good(line: RuleLine) -> bool
    ensures defined { result ≡ rule.line_good (line_of line) }
{
    let id = signed(line[RULE_ID]);
    (line[RULE_KIND] <= RULE_TOTAL)
        & ((line[RULE_KIND] != RULE_POINTS) | (line[RULE_NUMBER] <= MOST_POINTS))
        & ((line[RULE_KIND] != RULE_TOTAL) | (id == 0))
}

// The table of lines: each stands after the one before it, and is good.
fn lines_good(lines: &[RuleLine]) -> Result<(), BadLine>
    ensures defined { bad_line result ≡ rule.bad_from 0 none (map line_of lines.now) }
{
    for i in 0..lines.len() {
        let after = stands(lines, i);
        let good = after & line_good(lines[i]);
        if !good {
            return Err(BadLine { line: i });
        }
    }
    Ok(())
}

// The most that a line allows.
fn most(line: RuleLine) -> u64
    ensures defined { result ≡ rule.most (line_of line) }
{
    if line[RULE_KIND] == RULE_FORBIDDEN {
        return 0;
    }
    line[RULE_NUMBER] as u64
}

// What a line counts: a total the points of the lines before it, any other its own sum.
fn tally(line: RuleLine, points: u64, sum: u64) -> u64
    ensures defined { result ≡ cond (eqb (line_of line).kind 3) points sum }
{
    if line[RULE_KIND] == RULE_TOTAL {
        points
    } else {
        sum
    }
}

// What the pieces of a line's sum cost, where it gives points.
fn worth(line: RuleLine, sum: u64) -> u64
    requires cheap { (line_of line).kind ≡ 0 → (line_of line).number ≤ 65535 }
    requires few { sum ≤ 4398046510080 }
    ensures defined { result ≡ cond (eqb (line_of line).kind 0) (sum * (line_of line).number) 0 }
{
    if line[RULE_KIND] == RULE_POINTS {
        let each = line[RULE_NUMBER];
        return sum * (each as u64);
    }
    0
}

// Whether a line is broken by what it counts.
fn is_broken(line: RuleLine, count: u64) -> bool
    ensures defined { result ≡ rule.is_over (line_of line) count }
{
    let allows = most(line);
    (RULE_POINTS < line[RULE_KIND]) & (allows < count)
}

// A block of lines by its sums, from the points of the lines before it. All that is counted is os.
fn walk(lines: &[RuleLine], n: usize, sums: &Sums, from: Walked) -> Result<Walked, Broken>
    ghost os: { List Item }
    requires ordered { Ordered (map line_of lines.now) }
    requires told { Told (map line_of lines.now) os from.next n sums.now }
    requires reached { Reached (map line_of lines.now) os from.next from.points }
    ensures passed { Passed (map line_of lines.now) os from.next result }
{
    let first = from.next;
    let end = first + n;
    let mut points = from.points;
    for i in first..end {
        let line = lines[i];
        let sum = sums[i - first];
        let count = tally(line, points, sum);
        if is_broken(line, count) {
            return Err(Broken { line: i, count });
        }
        points += worth(line, sum);
    }
    Ok(Walked { points, next: end })
}

// The block of lines that starts where it was walked to.
fn in_block(
    lines: &[RuleLine],
    from: Walked,
    book: &[u8],
    fit: &[u8],
    pairs: &TablePairs,
) -> Result<Walked, Broken>
    ghost os: { List Item }
    requires ordered { Ordered (map line_of lines.now) }
    requires inside { from.next < length lines.now }
    requires held_book { HeldBook book.now pairs.now }
    requires held_fit { HeldFit fit.now pairs.now }
    requires all { os ≡ counted (book_of book.now pairs.now) (fit_of fit.now pairs.now) }
    requires reached { Reached (map line_of lines.now) os from.next from.points }
    ensures passed { Passed (map line_of lines.now) os from.next result }
{
    let mut sums = [0u64; PLACES];
    let n = tallied(&mut sums, lines, from.next, book, fit, pairs);
    walk(lines, n, &sums, from)
}

// The lines, a block at a time.
fn first_broken(
    lines: &[RuleLine],
    book: &[u8],
    fit: &[u8],
    pairs: &TablePairs,
) -> Result<(), Broken>
    requires ordered { Ordered (map line_of lines.now) }
    requires held_book { HeldBook book.now pairs.now }
    requires held_fit { HeldFit fit.now pairs.now }
    ensures defined { let ls = map line_of lines.now in
        broken_of result ≡ rule.verdict_from ls (counted (book_at book pairs) (fit_at fit pairs)) 0 ls }
    ensures no_wrap { rule.count_of (broken_of result) < 2 ^ 58 }
{
    let mut at = Walked { points: 0, next: 0 };
    // A while: how far a block reaches is known when it was walked.
    while at.next < lines.len() {
        at = in_block(lines, at, book, fit, pairs)?;
    }
    Ok(())
}

// A book and a fit that are sound: the table of lines first.
fn judged(lines: &[RuleLine], book: &[u8], fit: &[u8], pairs: &TablePairs) -> Result<(), NotAllowed>
    requires held_book { HeldBook book.now pairs.now }
    requires held_fit { HeldFit fit.now pairs.now }
    ensures defined { verdict_of result ≡ rule.judged (book_at book pairs) (fit_at fit pairs) (map line_of lines.now) }
    ensures no_wrap { rule.count_of (verdict_of result) < 2 ^ 58 }
{
    lines_good(lines)?;
    first_broken(lines, book, fit, pairs)?;
    Ok(())
}

// A sheet: its shape, then its lines.
fn sheet_judged(lines: &[RuleLine], sheet: &[u8]) -> Result<(), NotAllowed>
    ensures defined { verdict_of result ≡ rule.checked sheet.now lines.now }
    ensures no_wrap { rule.count_of (verdict_of result) < 2 ^ 58 }
{
    shape(sheet)?;
    let pairs = pairs_of(sheet);
    judged(lines, sheet, sheet, &pairs)
}

// A book and a fit: their shape, then their lines.
fn files_judged(lines: &[RuleLine], book: &[u8], fit: &[u8]) -> Result<(), NotAllowed>
    ensures defined { verdict_of result ≡ rule.checked_files book.now fit.now lines.now }
    ensures no_wrap { rule.count_of (verdict_of result) < 2 ^ 58 }
{
    let pairs = pairs_in(book, fit);
    files_shape(book, fit, &pairs)?;
    judged(lines, book, fit, &pairs)
}

// 01's number and place, and the rest of the answer.
fn answer(verdict: Result<(), NotAllowed>) -> Checked
    ensures defined { result ≡ answer_of (verdict_of verdict) }
{
    let told = Checked {
        number: 0,
        place: 0,
        allowed: 0,
        line: 0,
        count: 0,
    };
    match verdict {
        Ok(()) => Checked { allowed: 1, ..told },
        Err(NotAllowed::Breaks(broken)) => Checked {
            line: broken.line as u64,
            count: broken.count,
            ..told
        },
        Err(NotAllowed::Shape(bad)) => Checked {
            number: SHAPE,
            place: bad.table as u64,
            ..told
        },
        Err(NotAllowed::Rules(bad)) => Checked {
            number: RULES,
            place: bad.line as u64,
            ..told
        },
    }
}

// A sheet against an organiser's lines: nothing is required, nothing is written.
pub fn dogma_check_rules(lines: &[RuleLine], sheet: &[u8]) -> Checked
    ensures defined { result ≡ answer_of (rule.checked sheet.now lines.now) }
    ensures no_sum_wraps { result.count < 2 ^ 58 }
{
    answer(sheet_judged(lines, sheet))
}

// The same of a book and a fit.
pub fn dogma_check_rules_files(lines: &[RuleLine], book: &[u8], fit: &[u8]) -> Checked
    ensures defined { result ≡ answer_of (rule.checked_files book.now fit.now lines.now) }
    ensures no_sum_wraps { result.count < 2 ^ 58 }
{
    answer(files_judged(lines, book, fit))
}
