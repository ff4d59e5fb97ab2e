// The values and the source rows of a sound sheet, once lists 1 to 4 are made (pass_3.rs).
#![tactic(auto)]

ghost use Rattle.std.specs.Prelude.{◌≡◌, List, ◌≤◌, ◌<◌, ◌^◌, length};
ghost use Rattle.rules.specs.Sheet.{book_of, fit_of};
ghost use Rattle.rules.specs.Dispatch.{Row};
ghost use Rattle.rules.specs.Outcome.{blank, rows_in, starts_of, valued, world_of};
ghost use Rattle.info.specs.Sound.{SoundBook, SoundFit};
ghost use Rattle.sources.specs.Rows.{DispatchedRows, Planning};
ghost use Rattle.values.specs.Setting.{planned_rows, RowsListed, SetGives};

use blank::unstarted;
use columns::{AttributeRow, EntryRow, SourceFloats, SourceRow, States, TablePairs};
use memory::ReadColumns;
use reading::stretches::{set_limits, set_stretches};
use rules::Refusal;
use sources::Recording;
use sources::plan::set_sources;
use walk::calculate_values;

// Where source rows are recorded, first and count in list 5 of the first n rows.
fn plan_sources(
    rows: &mut [AttributeRow],
    entries: &[EntryRow],
    values: &[f64],
    states: &States,
    n: usize,
    recording: bool,
)
    requires planning { Planning n rows.old entries.now values.now }
    ensures defined { (rs : List Row) → DispatchedRows rs n rows.old entries.now values.now
        → rows.new ≡ planned_rows recording n rs states.now rows.old }
{
    if recording {
        set_sources(rows, entries, values, states, n);
    }
}

// The values of the n rows, and their source rows. Where it is refused, the columns that are written may hold anything.
pub fn set_values(
    rows: &mut [AttributeRow],
    values: &mut [f64],
    sources: &mut [SourceRow],
    floats: &mut [SourceFloats],
    bases: &[f64],
    entries: &[EntryRow],
    entry_values: &[f64],
    states: &States,
    book: &[u8],
    fit: &[u8],
    pairs: &TablePairs,
    n: usize,
    run: Recording,
) -> Result<u32, Refusal>
    requires sound_book { SoundBook book.now pairs.now }
    requires sound_fit { SoundFit fit.now pairs.now }
    requires listed { RowsListed (book_of book.now pairs.now) (fit_of fit.now pairs.now) n run
        states.now rows.old bases.now entries.now entry_values.now }
    requires few { (n ≤ length values.old) × (n < 2 ^ 32) }
    requires roomy { (run.room ≤ length sources.old) × (run.room ≤ length floats.old) × (run.room ≤ 4294967295) }
    ensures defined { let k = book_of book.now pairs.now in
        let f = fit_of fit.now pairs.now in
        SetGives k f n run states bases entries entry_values rows values sources floats result
        (valued (world_of k f run.room) f.depth (starts_of f (rows_in k f)) (blank (rows_in k f))) }
{
    plan_sources(rows, entries, entry_values, states, n, run.recording);
    unstarted(values, n);
    let stretches = set_stretches(&rows[..n]);
    let limits = set_limits(book, pairs);
    let columns = ReadColumns {
        book,
        pairs,
        states,
        stretches: &stretches,
        limits: &limits,
        rows: &rows[..n],
        bases: &bases[..n],
        entries,
        entry_values,
    };
    calculate_values(&mut values[..n], sources, floats, &columns, run, fit)
}

pub mod blank;
pub mod walk;
