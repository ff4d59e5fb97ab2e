// Integers: floats cut to them, their 32 bits, and truths and ids as numbers of 32 bits.
ghost use Rattle.std.specs.Prelude.{◌≡◌};
ghost use Rattle.std.specs.Int.{w32};
ghost use Rattle.std.proofs.Common.{to_z, of_z};
ghost use Rattle.rules.specs.Number as N;
ghost use Rattle.rules.specs.Columns.{yes1, optional_numbers};

// Whether an id is given, and the id.
pub type OptionalPair = [u32; 2];

// `as i32` of the Rust: toward zero, and held to the ends; a NaN gives 0.
pub fn cut(x: f64) -> i32
    ensures defined { result ≡ N.cut x }
{
    std::num::saturating_f64_to_i32(x)
}

// The signed number whose 32 bits these are.
pub fn signed(x: u32) -> i32
    ensures defined { result ≡ to_z w32 x }
    ensures and_back { of_z w32 result ≡ x }
{
    x.cast_signed()
}

// The 32 bits of a signed number.
pub fn bits(x: i32) -> u32
    ensures defined { result ≡ of_z w32 x }
    ensures and_back { to_z w32 result ≡ x }
{
    x.cast_unsigned()
}

// Yes is 1, no is 0.
pub fn flag(yes: bool) -> u32
    ensures defined { result ≡ yes1 yes }
{
    u32::from(yes)
}

// What may be absent as two numbers: 0 or 1 for absent or given, and the id.
pub fn optional_numbers(o: Option<i32>) -> OptionalPair
    ensures defined { result ≡ optional_numbers o }
{
    match o {
        None => [0, 0],
        Some(id) => [1, bits(id)],
    }
}
