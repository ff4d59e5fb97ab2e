// Every value: the asks in their order, then the walk over all rows. Each starts at depth 1 (pass_3.rs).
ghost use Rattle.std.specs.Prelude.{◌≡◌, true, map, ◌<◌, length};
ghost use Rattle.rules.specs.Outcome.{valued, starts_of, walk_order};
ghost use Rattle.rules.specs.Sheet.{fit_of};
ghost use Rattle.rules.specs.Value.{value_of};
ghost use Rattle.info.specs.Sound.{SoundFit};
ghost use Rattle.memory.specs.Steps.{row_at};
ghost use Rattle.pass_3.specs.Calls.{ReadyNow, Gives};
ghost use Rattle.values.specs.Complete.{ask_of};
ghost use Rattle.values.specs.Starting.{Untouched, StartsGive, WalkableNow, WalkGives};

use columns::{AttributeRow, Limits, SourceFloats, SourceRow, TABLE_ASKS};
use info::header::{count_of, depth_of};
use info::records::ask;
use memory::ReadColumns;
use memory::apply::Got;
use pass_3::{calculate_value, calculated_value};
use reading::stretches::is_bare;
use reading::turns::{turns_of, walked};
use rules::Refusal;
use sources::Recording;

// The asks, in their order: how many source rows there are then.
fn asks(
    values: &mut [f64],
    sources: &mut [SourceRow],
    floats: &mut [SourceFloats],
    columns: &ReadColumns,
    run: Recording,
    fit: &[u8],
) -> Result<u32, Refusal>
    requires holding { ReadyNow columns.now values sources floats run 0 }
    requires sound { SoundFit fit.now columns.now.pairs.now }
    ensures defined { let f = fit_of fit.now columns.now.pairs.now in
        StartsGive columns.now values sources floats run result (λ w. valued w f.depth f.asks) }
{
    let n = count_of(columns.pairs, TABLE_ASKS);
    let depth = depth_of(fit, columns.pairs);
    let mut used: u32 = 0;
    for i in 0..n {
        let a = ask(fit, columns.pairs, i);
        let got = calculated_value(
            values,
            sources,
            floats,
            columns,
            run,
            a.object,
            a.attribute_id,
            depth,
            used,
        )?;
        used = got.used;
    }
    Ok(used)
}

// Whether a row's value is its base: it has no entries, its attribute has no limit, and depth is left.
fn untouched(rows: &[AttributeRow], limits: &Limits, row: usize, left: u32) -> bool
    requires within { row < length rows.now }
    ensures untouched { result ≡ true → Untouched rows.now limits.now row left }
{
    left != 0 && is_bare(rows, limits, row)
}

// The value of a row on the walk: one that is there and one that is the base take no calculation.
fn walk_row(
    values: &mut [f64],
    sources: &mut [SourceRow],
    floats: &mut [SourceFloats],
    columns: &ReadColumns,
    run: Recording,
    row: usize,
    left: u32,
    used: u32,
) -> Result<Got, Refusal>
    requires holding { ReadyNow columns.now values sources floats run used }
    requires within { row < length columns.now.rows.now }
    ensures defined { Gives columns.now values sources floats run used result (λ w. value_of w left (row_at w row).object (row_at w row).id) }
{
    let v = values[row];
    if v == v {
        return Ok(Got { value: v, used });
    }
    if untouched(columns.rows, columns.limits, row, left) {
        let base = columns.bases[row];
        values[row] = base;
        return Ok(Got { value: base, used });
    }
    calculate_value(values, sources, floats, columns, run, row, left, used)
}

// The walk: ship, projected, mode, char, items and charges, skills, ids ascending.
fn walk(
    values: &mut [f64],
    sources: &mut [SourceRow],
    floats: &mut [SourceFloats],
    columns: &ReadColumns,
    run: Recording,
    fit: &[u8],
    before: u32,
) -> Result<u32, Refusal>
    requires holding { WalkableNow columns.now values sources floats run before fit }
    requires sound { SoundFit fit.now columns.now.pairs.now }
    ensures defined { let f = fit_of fit.now columns.now.pairs.now in
        WalkGives columns.now values sources floats run before fit result (λ w. valued w f.depth (map ask_of (walk_order f.objects w.rows))) }
{
    let n = columns.rows.len();
    let depth = depth_of(fit, columns.pairs);
    let turns = turns_of(columns.rows, fit, columns.pairs);
    let mut used = before;
    for k in 0..n {
        let row = walked(turns, k);
        let got = walk_row(values, sources, floats, columns, run, row, depth, used)?;
        used = got.used;
    }
    Ok(used)
}

// The value of every row: the asks, then the walk.
pub fn calculate_values(
    values: &mut [f64],
    sources: &mut [SourceRow],
    floats: &mut [SourceFloats],
    columns: &ReadColumns,
    run: Recording,
    fit: &[u8],
) -> Result<u32, Refusal>
    requires holding { WalkableNow columns.now values sources floats run 0 fit }
    requires sound { SoundFit fit.now columns.now.pairs.now }
    ensures defined { let f = fit_of fit.now columns.now.pairs.now in
        WalkGives columns.now values sources floats run 0 fit result (λ w. valued w f.depth (starts_of f w.rows)) }
{
    let used = asks(values, sources, floats, columns, run, fit)?;
    walk(values, sources, floats, columns, run, fit, used)
}
