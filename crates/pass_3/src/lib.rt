// Values: an attribute's value from its base and its entries, with the memory of those already valued (pass_3.rs).
// `calculate_value` and `calculated_value` call each other; each calculation that starts leaves one row fewer that is not started.
#![tactic(auto)]

ghost use Rattle.std.specs.Prelude.{◌≡◌, Bool, cond, List, [], ◌∷◌, ℕ, ◌≤◌, ◌<◌, T, Float, length};
ghost use Rattle.laws.specs.Floats.{finite};
ghost use Rattle.rules.specs.Codes.{operators};
ghost use Rattle.rules.specs.Dispatch.{Row};
ghost use Rattle.rules.specs.Info.{get_dogma_attribute, high_is_good};
ghost use Rattle.rules.specs.Operate.{Values, applied};
ghost use Rattle.rules.specs.Sheet.{book_of};
ghost use Rattle.info.specs.Sound.{SoundBook};
ghost use Rattle.rules.specs.Value.{value_of, operate, gather, clamped};
ghost use Rattle.rules.specs.Value as defined;
ghost use Rattle.memory.specs.Steps.{row_at, entry_at, strength_of, evaluation};
ghost use Rattle.memory.specs.Holding.{Good};
ghost use Rattle.memory.specs.Answers.{held_by};
ghost use Rattle.gather.specs.Piles.{Eights};
ghost use Rattle.gather.specs.Adds.{pile_of, tried, grown_if, EightsAt};
ghost use Rattle.pass_3.specs.Calls.{is_assign, ReadyNow, BusyNow, Gives, BusyGives, PartGives, GivesOn, Piling, PileGives};

use columns::{
    ENTRY_OPERATOR, ROW_ATTRIBUTE, ROW_ENTRY_COUNT, ROW_FIRST_ENTRY, ROW_FIRST_SOURCE, ROW_OBJECT,
    SourceFloats, SourceRow, TablePairs,
};
use gather::{Growing, add_entry, empty, grown};
use info::look_ups::get_dogma_attribute;
use item::codes::operator_code;
use memory::ReadColumns;
use memory::apply::{Got, Part, apply, held_to};
use numbers::integers::signed;
use numbers::product;
use reading::entries::{entry_at, is_running, operator_of, operators_in};
use reading::stretches::{find, is_limited};
use rules::{Effect, EffectOperator, Origin, Refusal};
use sources::{Recording, SourceCounts};

// The value of an attribute of an object: its row's, or the default where it has none.
#[cycle(calculation)]
pub fn calculated_value(
    values: &mut [f64],
    sources: &mut [SourceRow],
    floats: &mut [SourceFloats],
    columns: &ReadColumns,
    run: Recording,
    object: u32,
    attribute: i32,
    left: u32,
    used: u32,
) -> Result<Got, Refusal>
    requires holding { ReadyNow columns.now values sources floats run used }
    requires an_object { object < 1024 }
    ensures defined { Gives columns.now values sources floats run used result (λ w. value_of w left object attribute) }
{
    let Some(row) = find(columns.rows, columns.stretches, object, attribute) else {
        let record = get_dogma_attribute(columns.book, columns.pairs, attribute);
        return Ok(Got {
            value: record.default_value,
            used,
        });
    };
    calculate_value(values, sources, floats, columns, run, row, left, used)
}

// The value of a row: the one in the column where the row is started or done.
#[cycle(calculation)]
pub fn calculate_value(
    values: &mut [f64],
    sources: &mut [SourceRow],
    floats: &mut [SourceFloats],
    columns: &ReadColumns,
    run: Recording,
    row: usize,
    left: u32,
    used: u32,
) -> Result<Got, Refusal>
    requires holding { ReadyNow columns.now values sources floats run used }
    requires within { row < length columns.now.rows.now }
    ensures defined { Gives columns.now values sources floats run used result (λ w. value_of w left (row_at w row).object (row_at w row).id) }
{
    let v = values[row];
    if v == v {
        return Ok(Got { value: v, used });
    }
    if left == 0 {
        let object = columns.rows[row][ROW_OBJECT];
        return Err(Refusal::Depth(object));
    }
    let base = columns.bases[row];
    values[row] = base;
    let got = evaluated(values, sources, floats, columns, run, row, left - 1, used)?;
    values[row] = got.value;
    Ok(got)
}

// The value of a row under calculation: its operators, then min, then max. Its record is looked up where it may have a limit.
#[cycle(calculation)]
fn evaluated(
    values: &mut [f64],
    sources: &mut [SourceRow],
    floats: &mut [SourceFloats],
    columns: &ReadColumns,
    run: Recording,
    row: usize,
    left: u32,
    used: u32,
) -> Result<Got, Refusal>
    requires begun { BusyNow columns.now values sources floats run used row 0 operators }
    ensures defined { BusyGives columns.now values sources floats run used row result (λ w. evaluation w (value_of w left) row (row_at w row)) }
{
    let id = signed(columns.rows[row][ROW_ATTRIBUTE]);
    let count = columns.rows[row][ROW_ENTRY_COUNT];
    let has_limits = is_limited(columns.limits, id);
    if count == 0 {
        if !has_limits {
            return Ok(Got {
                value: columns.bases[row],
                used,
            });
        }
    }
    let got = operated(values, sources, floats, columns, run, row, left, used)?;
    if !has_limits {
        return Ok(got);
    }
    let record = get_dogma_attribute(columns.book, columns.pairs, id);
    let object = columns.rows[row][ROW_OBJECT];
    let low = limited(
        values,
        sources,
        floats,
        columns,
        run,
        object,
        record.min_attribute_id,
        true,
        got,
        left,
    )?;
    limited(
        values,
        sources,
        floats,
        columns,
        run,
        object,
        record.max_attribute_id,
        false,
        low,
        left,
    )
}

// A value held to a limit that is read off the same object; 0 means none.
#[cycle(calculation)]
fn limited(
    values: &mut [f64],
    sources: &mut [SourceRow],
    floats: &mut [SourceFloats],
    columns: &ReadColumns,
    run: Recording,
    object: u32,
    limit: i32,
    least: bool,
    got: Got,
    left: u32,
) -> Result<Got, Refusal>
    requires holding { ReadyNow columns.now values sources floats run got.used }
    requires within { (object < 1024) × T (finite got.value) }
    ensures defined { Gives columns.now values sources floats run got.used result
        (λ w m. clamped object (value_of w left) (held_by least) limit (record { value = got.value; mem = m })) }
{
    if limit == 0 {
        return Ok(got);
    }
    let bound = calculated_value(
        values, sources, floats, columns, run, object, limit, left, got.used,
    )?;
    Ok(Got {
        value: held_to(got.value, bound.value, least),
        used: bound.used,
    })
}

// The base value of a row with its operators applied in their order; one that no entry has is passed over.
#[cycle(calculation)]
fn operated(
    values: &mut [f64],
    sources: &mut [SourceRow],
    floats: &mut [SourceFloats],
    columns: &ReadColumns,
    run: Recording,
    row: usize,
    left: u32,
    used: u32,
) -> Result<Got, Refusal>
    requires begun { BusyNow columns.now values sources floats run used row 0 operators }
    ensures defined { BusyGives columns.now values sources floats run used row result
        (λ w m. operate w row (row_at w row) (value_of w left) operators (record { value = (row_at w row).base; mem = m })) }
{
    let first = columns.rows[row][ROW_FIRST_ENTRY] as usize;
    let end = first + columns.rows[row][ROW_ENTRY_COUNT] as usize;
    let marks = operators_in(columns.entries, first, end);
    let mut part = Part {
        value: columns.bases[row],
        counts: SourceCounts { own: 0, used },
    };
    for code in 0u32..9 {
        let operator = operator_of(code);
        let mark = marks[code as usize];
        if mark != 0 {
            part = gathered(
                values, sources, floats, columns, run, row, operator, left, part,
            )?;
        }
    }
    Ok(Got {
        value: part.value,
        used: part.counts.used,
    })
}

// Whether an operator assigns.
fn is_assign(operator: EffectOperator) -> bool
    ensures defined { result ≡ is_assign operator }
{
    matches!(
        operator,
        EffectOperator::PreAssign | EffectOperator::PostAssign
    )
}

// Whether high is good of an attribute; only an operator that assigns asks its record.
fn is_high(book: &[u8], pairs: &TablePairs, operator: EffectOperator, id: i32) -> bool
    requires sound { SoundBook book.now pairs.now }
    ensures asked { let high = high_is_good (get_dogma_attribute (book_of book.now pairs.now) id) in
        ((v : Float) (g : Values) → applied result operator v g ≡ applied high operator v g) }
{
    let assigns = is_assign(operator);
    if !assigns {
        return false;
    }
    let record = get_dogma_attribute(book, pairs, id);
    record.flags / 2 == 1
}

// One operator: all its entries are gathered, then they are applied.
#[cycle(calculation)]
fn gathered(
    values: &mut [f64],
    sources: &mut [SourceRow],
    floats: &mut [SourceFloats],
    columns: &ReadColumns,
    run: Recording,
    row: usize,
    operator: EffectOperator,
    left: u32,
    part: Part,
) -> Result<Part, Refusal>
    requires begun { (BusyNow columns.now values sources floats run part.counts.used row part.counts.own (operator ∷ [])) × T (finite part.value) }
    ensures defined { PartGives columns.now values sources floats run part.counts row operator result
        (λ w m. operate w row (row_at w row) (value_of w left) (operator ∷ []) (record { value = part.value; mem = m })) }
{
    let count = columns.rows[row][ROW_ENTRY_COUNT] as usize;
    let id = signed(columns.rows[row][ROW_ATTRIBUTE]);
    let high = is_high(columns.book, columns.pairs, operator, id);
    let mut positives = [0.0; 8];
    let mut positive_sources = [0u32; 8];
    let mut negatives = [0.0; 8];
    let mut negative_sources = [0u32; 8];
    let mut p = empty(part.value, part.counts);
    for k in 0..count {
        with_entry(
            values,
            sources,
            floats,
            &mut positives,
            &mut positive_sources,
            &mut negatives,
            &mut negative_sources,
            columns,
            run,
            row,
            k,
            operator,
            high,
            left,
            &mut p,
        )?;
    }
    let object = columns.rows[row][ROW_OBJECT];
    let first = columns.rows[row][ROW_FIRST_SOURCE];
    let pile = grown(positives, positive_sources, negatives, negative_sources, p);
    apply(floats, run, first, object, pile)
}

// Entry k of a row goes to the pile, if it is of the operator and runs or is recorded.
#[cycle(calculation)]
fn with_entry(
    values: &mut [f64],
    sources: &mut [SourceRow],
    floats: &mut [SourceFloats],
    positives: &mut [f64; 8],
    positive_sources: &mut [u32; 8],
    negatives: &mut [f64; 8],
    negative_sources: &mut [u32; 8],
    columns: &ReadColumns,
    run: Recording,
    row: usize,
    k: usize,
    operator: EffectOperator,
    high: bool,
    left: u32,
    p: &mut Growing,
) -> Result<(), Refusal>
    requires piling { Piling columns.now values sources floats run row k high operator (pile_of positives positive_sources negatives negative_sources p.old) }
    requires eights { EightsAt positives positive_sources negatives negative_sources }
    ensures defined { let pile = tried positives positive_sources negatives negative_sources p.old (grown_if p.new result) in
        PileGives columns.now values sources floats pile run row k high operator
        (λ w m v. gather w row (row_at w row) (value_of w left) operator (entry_at w row k ∷ []) (record { mem = m; values = v })) }
    ensures eights { Eights positives.new positive_sources.new negatives.new negative_sources.new }
{
    let at = columns.rows[row][ROW_FIRST_ENTRY] as usize + k;
    let code = columns.entries[at][ENTRY_OPERATOR];
    if code != operator_code(operator) {
        return Ok(());
    }
    let e = entry_at(columns.entries, columns.entry_values, at);
    let runs = is_running(columns.states, e.origin);
    if !(runs | run.recording) {
        return Ok(());
    }
    let object = columns.rows[row][ROW_OBJECT];
    let first = columns.rows[row][ROW_FIRST_SOURCE];
    let got = strength(
        values,
        sources,
        floats,
        columns,
        run,
        object,
        e,
        left,
        p.counts.used,
    )?;
    p.counts.used = got.used;
    add_entry(
        positives,
        positive_sources,
        negatives,
        negative_sources,
        sources,
        floats,
        run,
        first,
        object,
        high,
        runs,
        e,
        got.value,
        p,
    )
}

// The strength of an entry: a buff's own, or an attribute of its source, held against the ship's resistance.
#[cycle(calculation)]
fn strength(
    values: &mut [f64],
    sources: &mut [SourceRow],
    floats: &mut [SourceFloats],
    columns: &ReadColumns,
    run: Recording,
    object: u32,
    e: Effect,
    left: u32,
    used: u32,
) -> Result<Got, Refusal>
    requires holding { ReadyNow columns.now values sources floats run used }
    requires good { Good e }
    ensures defined { GivesOn columns.now values sources floats run used object result (λ w i row. strength_of w (value_of w left) i row e e.origin) }
{
    match e.origin {
        Origin::Buff { value, .. } => Ok(Got { value, used }),
        Origin::Effect {
            source,
            attribute_id,
            ..
        } => {
            let got = calculated_value(
                values,
                sources,
                floats,
                columns,
                run,
                source,
                attribute_id,
                left,
                used,
            )?;
            resisted(
                values,
                sources,
                floats,
                columns,
                run,
                object,
                e.resistance,
                got,
                left,
            )
        }
    }
}

// A strength times the ship's resistance, where one is named.
#[cycle(calculation)]
fn resisted(
    values: &mut [f64],
    sources: &mut [SourceRow],
    floats: &mut [SourceFloats],
    columns: &ReadColumns,
    run: Recording,
    object: u32,
    resistance: Option<i32>,
    got: Got,
    left: u32,
) -> Result<Got, Refusal>
    requires holding { ReadyNow columns.now values sources floats run got.used }
    requires number { T (finite got.value) }
    ensures defined { GivesOn columns.now values sources floats run got.used object result
        (λ w i row m. defined.resisted w i row (value_of w left) resistance (record { value = got.value; mem = m })) }
{
    let Some(attribute) = resistance else {
        return Ok(got);
    };
    let resisting = calculated_value(
        values, sources, floats, columns, run, 0, attribute, left, got.used,
    )?;
    let Some(value) = product(got.value, resisting.value) else {
        return Err(Refusal::Number(object));
    };
    Ok(Got {
        value,
        used: resisting.used,
    })
}
