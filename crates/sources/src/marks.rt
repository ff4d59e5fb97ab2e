// Penalties of source rows: the weight of a copy's position, set when its operator is applied.
ghost use Rattle.std.specs.Prelude.{◌≡◌, ◌+◌, ◌≤◌, length};
ghost use Rattle.rules.specs.Operate.{sorted};
ghost use Rattle.rules.specs.Value.{marked};
ghost use Rattle.sources.specs.Marks.{MarksGive, penalty_at};

use super::Recording;
use columns::{SOURCE_VALUE, SourceFloats};
use numbers::weight;
use operate::buckets::{Bucket, kept};

// The penalty of a source row of the row whose places begin at first.
fn set_penalty(floats: &mut [SourceFloats], run: Recording, first: u32, source: u32, penalty: f64)
    requires roomy { run.room ≤ length floats.old }
    ensures defined { floats.new ≡ penalty_at run (first + source) penalty floats.old }
{
    let room = run.room as usize;
    let place = first as usize + source as usize;
    if !run.recording {
        return;
    }
    if place < room {
        floats[place] = [floats[place][SOURCE_VALUE], penalty];
    }
}

// The penalties of a bucket's copies, by position; past the eighth they stay 0.0.
pub fn set_penalties(floats: &mut [SourceFloats], run: Recording, first: u32, b: Bucket)
    requires roomy { run.room ≤ length floats.old }
    ensures defined { MarksGive run first b floats (λ xs. marked 0 (sorted xs)) }
{
    let n = kept(b.count);
    for p in 0..n {
        set_penalty(floats, run, first, b.sources[p], weight(p));
    }
}
