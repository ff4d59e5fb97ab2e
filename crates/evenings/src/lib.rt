// Any list of calls of a club's evening: what one gives back is in specs/, what holds of them in proofs/.
#![tactic(auto)]

ghost use Rattle.std.specs.Prelude.{◌≡◌};

// A crate has a function.
pub fn nothing() -> u32
    ensures defined { result ≡ 0 }
{
    0
}
