// What the definition promises: the crate's theorems are in proofs/.
#![tactic(auto)]

ghost use Rattle.std.specs.Prelude.{◌≡◌};

// A crate has a function.
pub fn nothing() -> u32
    ensures defined { result ≡ 0 }
{
    0
}
