// Who is touched: whom an effect names is in specs/, that it is so of every run in proofs/.
#![tactic(auto)]

ghost use Rattle.std.specs.Prelude.{◌≡◌};

// A crate has a function.
pub fn nothing() -> u32
    ensures defined { result ≡ 0 }
{
    0
}
