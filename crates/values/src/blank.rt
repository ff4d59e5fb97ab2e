// The column of values before the first is calculated.
ghost use Rattle.std.specs.Prelude.{◌≡◌, ◌++◌, ◌≤◌, length, replicate, drop};
ghost use Rattle.std.specs.Float.{nan};

// No value is there yet: the first n are NaN.
pub fn unstarted(values: &mut [f64], n: usize)
    requires inside { n ≤ length values.old }
    ensures defined { values.new ≡ replicate n nan ++ drop n values.old }
{
    let none = 0.0 / 0.0;
    for k in 0..n {
        values[k] = none;
    }
}
