// Definitions are in specs/, laws in proofs/; here is what the searches share.
#![tactic(auto)]

ghost use Rattle.std.specs.Prelude.{◌≡◌, cond, ◌≤◌};

// The places between which a bound lies: so many, from low on.
#[derive(Clone, Copy)]
pub struct Window {
    pub low: usize,
    pub left: usize,
}

// How far on: so many where the test passed, else none.
pub fn step(n: usize, passed: bool) -> usize
    ensures defined { result ≡ cond passed n 0 }
    ensures at_most { result ≤ n }
{
    if passed { n } else { 0 }
}
