// What one operator gathers of a row's entries, entry by entry (pass_3.rs).
#![tactic(auto)]

ghost use Rattle.std.specs.Prelude.{◌≡◌, true, false, ◌+◌, ◌≤◌, ◌<◌, ◌^◌, min, T, Float, OnErr, length};
ghost use Rattle.std.specs.Float.Ieee.{lt};
ghost use Rattle.laws.specs.Floats.{finite, zero_f};
ghost use Rattle.rules.specs.Columns.{yes1};
ghost use Rattle.rules.specs.Operate.{Values};
ghost use Rattle.rules.specs.Value.{nothing, with_stack};
ghost use Rattle.rules.specs.Value as values;
ghost use Rattle.operate.specs.SoFar.{RunningOf, copies_from, with_copies};
ghost use Rattle.sources.specs.Keeping.{more_of};
ghost use Rattle.gather.specs.Piles.{whole, entered, entered_count};
ghost use Rattle.gather.specs.Adds.{piled, tried, grown_if, EightsAt, PileBegins, CopiesGive, EntryGives, PenalisedGives, PlainGives, IdleGives};

use columns::{CopySources, CopyValues, SourceFloats, SourceRow};
use numbers::integers::flag;
use numbers::{less, simplified};
use operate::buckets::Bucket;
use operate::{Running, more, put_copies, start};
use reading::entries::has_penalty;
use rules::{Effect, EffectOperator, Refusal};
use sources::notes::{kept, note, note_penalised};
use sources::rows::to_source;
use sources::{Recording, SourceCounts};

// What an operator has gathered: what its unpenalised values have made of the value that it found, the penalised copies, and how many source rows there are.
#[derive(Clone, Copy)]
pub struct Pile {
    pub running: Running,
    pub positive: Bucket,
    pub negative: Bucket,
    pub counts: SourceCounts,
}

// The same while it grows: the copies lie in columns of eight that are lent, and how many were put in stands here.
#[derive(Clone, Copy)]
pub struct Growing {
    pub running: Running,
    pub positive: usize,
    pub negative: usize,
    pub counts: SourceCounts,
}

// Nothing is gathered yet.
pub fn empty(value: f64, counts: SourceCounts) -> Growing
    ensures defined { PileBegins value counts result nothing }
    ensures counted { result.counts ≡ counts }
{
    Growing {
        running: start(value),
        positive: 0,
        negative: 0,
        counts,
    }
}

// An unpenalised value more.
fn put_value(p: &mut Growing, high: bool, operator: EffectOperator, x: f64, quantity: u32)
    ensures defined { (v : Float) (g : Values) → T (finite x) → RunningOf high operator v g.unpenalized p.old.running
        → RunningOf high operator v (with_stack x quantity g).unpenalized p.new.running }
    ensures kept { (p.new.counts ≡ p.old.counts) × (p.new.positive ≡ p.old.positive) × (p.new.negative ≡ p.old.negative) }
{
    p.running = more(p.running, high, operator, x, quantity);
}

// So many copies of a penalised value more, whose source rows follow those that the row has; 0.0 of either sign is among the positive ones.
fn put_penalised(
    positives: &mut CopyValues,
    positive_sources: &mut CopySources,
    negatives: &mut CopyValues,
    negative_sources: &mut CopySources,
    p: &mut Growing,
    recording: bool,
    x: f64,
    copies: u32,
)
    requires few { p.old.counts.own + more_of recording copies < 2 ^ 32 }
    requires eights { EightsAt positives positive_sources negatives negative_sources }
    ensures defined { let pile = piled positives positive_sources negatives negative_sources p.old p.new in
        CopiesGive pile x (with_copies (lt x zero_f) (copies_from x p.old.counts.own (yes1 recording) copies)) }
    ensures kept { (p.new.counts ≡ p.old.counts) × (p.new.running ≡ p.old.running) }
    ensures eights { EightsAt positives.exit positive_sources.exit negatives.exit negative_sources.exit }
{
    let own = p.counts.own;
    let step = flag(recording);
    if less(x, 0.0) {
        p.negative = put_copies(
            negatives,
            negative_sources,
            p.negative,
            x,
            own,
            step,
            copies,
        );
        return;
    }
    p.positive = put_copies(
        positives,
        positive_sources,
        p.positive,
        x,
        own,
        step,
        copies,
    );
}

// A penalised entry by its strength, and by x, its simplified value.
fn add_penalised(
    positives: &mut CopyValues,
    positive_sources: &mut CopySources,
    negatives: &mut CopyValues,
    negative_sources: &mut CopySources,
    sources: &mut [SourceRow],
    floats: &mut [SourceFloats],
    run: Recording,
    first: u32,
    e: Effect,
    strength: f64,
    x: f64,
    p: &mut Growing,
) -> Result<(), Refusal>
    requires roomy { (run.room ≤ length sources.old) × (run.room ≤ length floats.old) × (p.old.counts.own ≤ p.old.counts.used) }
    requires eights { EightsAt positives positive_sources negatives negative_sources }
    ensures defined { let pile = tried positives positive_sources negatives negative_sources p.old (grown_if p.new result) in
        PenalisedGives run first x pile sources floats (min e.quantity 9) (λ w i row. values.penalised w i row e strength x) }
    ensures counted { p.new.counts.own ≤ p.new.counts.used }
    ensures unchanged { OnErr result (p.new ≡ p.old) }
    ensures eights { EightsAt positives.exit positive_sources.exit negatives.exit negative_sources.exit }
{
    let counts = note_penalised(sources, floats, run, first, e, strength, p.counts)?;
    put_penalised(
        positives,
        positive_sources,
        negatives,
        negative_sources,
        p,
        run.recording,
        x,
        kept(e.quantity),
    );
    p.counts = counts;
    Ok(())
}

// An unpenalised entry by its strength, and by x, its simplified value.
fn add_plain(
    sources: &mut [SourceRow],
    floats: &mut [SourceFloats],
    run: Recording,
    first: u32,
    high: bool,
    e: Effect,
    strength: f64,
    x: f64,
    p: &mut Growing,
) -> Result<(), Refusal>
    requires roomy { (run.room ≤ length sources.old) × (run.room ≤ length floats.old) × (p.old.counts.own ≤ p.old.counts.used) }
    ensures defined { PlainGives run first high e x p.old (grown_if p.new result) sources floats 1 (λ w i row. values.unpenalised w i row e strength x) }
    ensures counted { p.new.counts.own ≤ p.new.counts.used }
    ensures unchanged { OnErr result (p.new ≡ p.old) }
{
    let s = to_source(e, strength, true, e.quantity, false);
    let counts = note(sources, floats, run, first, s, p.counts)?;
    put_value(p, high, e.operator, x, e.quantity);
    p.counts = counts;
    Ok(())
}

// An entry that does not run leaves a source row.
fn add_idle(
    sources: &mut [SourceRow],
    floats: &mut [SourceFloats],
    run: Recording,
    first: u32,
    e: Effect,
    strength: f64,
    p: &mut Growing,
) -> Result<(), Refusal>
    requires roomy { (run.room ≤ length sources.old) × (run.room ≤ length floats.old) × (p.old.counts.own ≤ p.old.counts.used) }
    ensures defined { IdleGives run first p.old (grown_if p.new result) sources floats 1 (λ w i row. entered w i row false e strength) }
    ensures counted { p.new.counts.own ≤ p.new.counts.used }
    ensures unchanged { OnErr result (p.new ≡ p.old) }
{
    let s = to_source(e, strength, false, e.quantity, false);
    p.counts = note(sources, floats, run, first, s, p.counts)?;
    Ok(())
}

// An entry that runs, by its strength: its simplified value must be finite, or the object has the refusal.
fn add_running(
    positives: &mut CopyValues,
    positive_sources: &mut CopySources,
    negatives: &mut CopyValues,
    negative_sources: &mut CopySources,
    sources: &mut [SourceRow],
    floats: &mut [SourceFloats],
    run: Recording,
    first: u32,
    object: u32,
    high: bool,
    e: Effect,
    strength: f64,
    p: &mut Growing,
) -> Result<(), Refusal>
    requires roomy { (run.room ≤ length sources.old) × (run.room ≤ length floats.old) × (p.old.counts.own ≤ p.old.counts.used) }
    requires eights { EightsAt positives positive_sources negatives negative_sources }
    ensures defined { let pile = tried positives positive_sources negatives negative_sources p.old (grown_if p.new result) in
        EntryGives run first object high e strength pile sources floats (entered_count true e) (λ w i row. entered w i row true e strength) }
    ensures counted { p.new.counts.own ≤ p.new.counts.used }
    ensures unchanged { OnErr result (p.new ≡ p.old) }
    ensures eights { EightsAt positives.exit positive_sources.exit negatives.exit negative_sources.exit }
{
    let Some(x) = simplified(e.operator, strength) else {
        return Err(Refusal::Number(object));
    };
    if e.penalty & has_penalty(e.operator) {
        return add_penalised(
            positives,
            positive_sources,
            negatives,
            negative_sources,
            sources,
            floats,
            run,
            first,
            e,
            strength,
            x,
            p,
        );
    }
    add_plain(sources, floats, run, first, high, e, strength, x, p)
}

// An entry by its strength, which runs or does not.
pub fn add_entry(
    positives: &mut CopyValues,
    positive_sources: &mut CopySources,
    negatives: &mut CopyValues,
    negative_sources: &mut CopySources,
    sources: &mut [SourceRow],
    floats: &mut [SourceFloats],
    run: Recording,
    first: u32,
    object: u32,
    high: bool,
    runs: bool,
    e: Effect,
    strength: f64,
    p: &mut Growing,
) -> Result<(), Refusal>
    requires roomy { (run.room ≤ length sources.old) × (run.room ≤ length floats.old) × (p.old.counts.own ≤ p.old.counts.used) }
    requires eights { EightsAt positives positive_sources negatives negative_sources }
    ensures defined { let pile = tried positives positive_sources negatives negative_sources p.old (grown_if p.new result) in
        EntryGives run first object high e strength pile sources floats (entered_count runs e) (λ w i row. entered w i row runs e strength) }
    ensures counted { p.new.counts.own ≤ p.new.counts.used }
    ensures unchanged { OnErr result (p.new ≡ p.old) }
    ensures eights { EightsAt positives.exit positive_sources.exit negatives.exit negative_sources.exit }
{
    if runs {
        return add_running(
            positives,
            positive_sources,
            negatives,
            negative_sources,
            sources,
            floats,
            run,
            first,
            object,
            high,
            e,
            strength,
            p,
        );
    }
    add_idle(sources, floats, run, first, e, strength, p)
}

// The pile that has grown in lent columns.
pub fn grown(
    positives: CopyValues,
    positive_sources: CopySources,
    negatives: CopyValues,
    negative_sources: CopySources,
    p: Growing,
) -> Pile
    ensures defined { result ≡ whole positives positive_sources negatives negative_sources p }
{
    Pile {
        running: p.running,
        positive: Bucket {
            values: positives,
            sources: positive_sources,
            count: p.positive,
        },
        negative: Bucket {
            values: negatives,
            sources: negative_sources,
            count: p.negative,
        },
        counts: p.counts,
    }
}
