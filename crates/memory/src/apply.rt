// What becomes of an operator's pile, and of a value that meets a limit (pass_3.rs).
ghost use Rattle.std.specs.Prelude.{◌≡◌, ◌≤◌, length};
ghost use Rattle.memory.specs.Answers.{Applies, applying, held_by};

use columns::SourceFloats;
use gather::Pile;
use numbers::less;
use operate::finished;
use rules::Refusal;
use sources::marks::set_penalties;
use sources::{Recording, SourceCounts};

// A value with the number of source rows so far.
#[derive(Clone, Copy)]
pub struct Got {
    pub value: f64,
    pub used: u32,
}

// The same after some operators, with the row's own source rows beside.
#[derive(Clone, Copy)]
pub struct Part {
    pub value: f64,
    pub counts: SourceCounts,
}

// The operator's values are applied, and its source rows get their penalties.
pub fn apply(
    floats: &mut [SourceFloats],
    run: Recording,
    first: u32,
    object: u32,
    p: Pile,
) -> Result<Part, Refusal>
    requires roomy { run.room ≤ length floats.old }
    ensures defined { Applies run first object p floats result applying }
{
    let Some(value) = finished(p.running, p.positive, p.negative) else {
        return Err(Refusal::Number(object));
    };
    set_penalties(floats, run, first, p.positive);
    set_penalties(floats, run, first, p.negative);
    Ok(Part {
        value,
        counts: p.counts,
    })
}

// A value that is at least, or at most, a limit: equal values keep the current one.
pub fn held_to(value: f64, limit: f64, least: bool) -> f64
    ensures defined { result ≡ held_by least value limit }
{
    let passed = if least {
        less(value, limit)
    } else {
        less(limit, value)
    };
    if passed { limit } else { value }
}
