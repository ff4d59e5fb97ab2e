// What one operator does to a value with the values that it gathers, one by one (pass_3.rs).
#![tactic(auto)]

ghost use Rattle.std.specs.Prelude.{◌≡◌, Bool, false, List, [], ◌++◌, ◌+◌, ◌*◌, ◌<◌, ◌^◌, T, Float, length};
ghost use Rattle.laws.specs.Floats.{finite};
ghost use Rattle.rules.specs.Number as N;
ghost use Rattle.rules.specs.Operate.{Copy, Values, has_penalty, applied};
ghost use Rattle.rules.specs.Value.{with_stack};
ghost use Rattle.operate.specs.Held.{Gathered, bucket_before, bucket_after};
ghost use Rattle.operate.specs.SoFar.{better, chosen_of, added_one, multiplied_one, plainly_one, RunningOf, copies_from};

use buckets::{Bucket, insert};
use columns::{CopySources, CopyValues};
use numbers::{as_float, less, power, product, sum};
use rules::EffectOperator;

// What an operator has made of its unpenalised values so far, None where a step was not finite, and whether there was one.
#[derive(Clone, Copy)]
pub struct Running {
    pub value: Option<f64>,
    pub any: bool,
}

// No value is there yet.
pub fn start(v: f64) -> Running
    ensures nothing_yet { (high : Bool) (op : EffectOperator) → T (finite v) → RunningOf high op v [] result }
{
    Running {
        value: Some(v),
        any: false,
    }
}

// The last of equal greatest, or the first of equal least.
fn better_of(high: bool, best: f64, x: f64) -> f64
    ensures defined { result ≡ better high best x }
{
    let below = less(x, best);
    if high {
        return if below { best } else { x };
    }
    if below { x } else { best }
}

// The first value that is assigned, or the better one.
fn chosen(high: bool, any: bool, best: Option<f64>, x: f64) -> Option<f64>
    ensures defined { result ≡ chosen_of high any best x }
{
    if !any {
        return Some(x);
    }
    Some(better_of(high, best?, x))
}

// So many times x more.
fn added(step: Option<f64>, x: f64, quantity: u32) -> Option<f64>
    ensures defined { result ≡ N.◌>>=◌ step (λ v. added_one v x quantity) }
{
    let v = step?;
    let y = product(x, as_float(quantity))?;
    sum(v, y)
}

// So many times 1.0 + x as a factor.
fn multiplied(step: Option<f64>, x: f64, quantity: u32) -> Option<f64>
    ensures defined { result ≡ N.◌>>=◌ step (λ v. multiplied_one v x quantity) }
{
    let v = step?;
    let y = sum(1.0, x)?;
    let z = power(y, quantity)?;
    product(v, z)
}

// One unpenalised value more.
fn stepped(
    running: Running,
    high: bool,
    operator: EffectOperator,
    x: f64,
    quantity: u32,
) -> Option<f64>
    ensures defined { result ≡ plainly_one high operator running x quantity }
{
    let step = running.value;
    match operator {
        EffectOperator::PreAssign => chosen(high, running.any, step, x),
        EffectOperator::PreMul => multiplied(step, x, quantity),
        EffectOperator::PreDiv => multiplied(step, x, quantity),
        EffectOperator::ModAdd => added(step, x, quantity),
        EffectOperator::ModSub => added(step, x, quantity),
        EffectOperator::PostMul => multiplied(step, x, quantity),
        EffectOperator::PostDiv => multiplied(step, x, quantity),
        EffectOperator::PostPercent => multiplied(step, x, quantity),
        EffectOperator::PostAssign => chosen(high, running.any, step, x),
    }
}

// One unpenalised value more, unless its quantity is 0.
pub fn more(
    running: Running,
    high: bool,
    operator: EffectOperator,
    x: f64,
    quantity: u32,
) -> Running
    ensures one_more { (v : Float) (g : Values) → T (finite x) → RunningOf high operator v g.unpenalized running
        → RunningOf high operator v (with_stack x quantity g).unpenalized result }
{
    if quantity == 0 {
        return running;
    }
    Running {
        value: stepped(running, high, operator, x, quantity),
        any: true,
    }
}

// The penalised copies after the unpenalised values: positives go first.
pub fn finished(running: Running, positive: Bucket, negative: Bucket) -> Option<f64>
    ensures defined { (high : Bool) (op : EffectOperator) (v : Float) (g : Values) → RunningOf high op v g.unpenalized running
        → Gathered g.positive positive → Gathered g.negative negative → (has_penalty op ≡ false → (g.positive ≡ []) × (g.negative ≡ []))
        → result ≡ applied high op v g }
{
    let plain = running.value?;
    let w = positive.weigh(plain)?;
    negative.weigh(w)
}

// So many copies more in the columns of a bucket, whose source rows are the first, and a step on each time: how many were put in then.
pub fn put_copies(
    values: &mut CopyValues,
    sources: &mut CopySources,
    count: usize,
    x: f64,
    first: u32,
    step: u32,
    copies: u32,
) -> usize
    requires counted { first + copies * step < 2 ^ 32 }
    requires eight { (length values.old ≡ 8) × (length sources.old ≡ 8) }
    ensures so_many_more { (xs : List Copy) → Gathered xs (bucket_before values sources count) → T (finite x)
        → Gathered (xs ++ copies_from x first step copies) (bucket_after values sources result) }
    ensures eight_still { (length values.new ≡ 8) × (length sources.new ≡ 8) }
{
    let mut n = count;
    let mut source = first;
    for _k in 0..copies {
        n = insert(values, sources, n, x, source);
        source += step;
    }
    n
}

pub mod buckets;
