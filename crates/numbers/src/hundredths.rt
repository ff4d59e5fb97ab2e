// Hundredths: what is printed of a float, the nearest one (02, M-101).
ghost use Rattle.std.specs.Prelude.{◌≡◌, ◌^◌, ◌<◌};
ghost use Rattle.rules.specs.Number.{hundredths_of};
ghost use Rattle.numbers.specs.Counted.{count_of};

use rules::Hundredths;

const LIMIT: u64 = 100_000_000_000_000;

// The hundredths of the size that an exponent's field and the digits below it say, the nearest, up to the limit.
fn counted(field: u64, digits: u64) -> u64
    requires of_52_bits { digits < 2 ^ 52 }
    ensures defined { result ≡ count_of field digits }
{
    if field == 0 {
        return 0;
    }
    if 1075 <= field {
        return LIMIT;
    }
    let shift = 1075 - field;
    if 61 <= shift {
        return 0;
    }
    let halves = ((digits + 0x10_0000_0000_0000) * 200) >> shift;
    let count = (halves + 1) / 2;
    if count < LIMIT {
        return count;
    }
    LIMIT
}

// The nearest hundredth of a value, halves away from zero, or that it is too large to print.
pub fn in_hundredths(x: f64) -> Option<Hundredths>
    ensures defined { result ≡ hundredths_of x }
{
    if x != x {
        return None;
    }
    let pattern = f64::to_bits(x);
    let field = pattern % 0x8000_0000_0000_0000 / 0x10_0000_0000_0000;
    let count = counted(field, pattern % 0x10_0000_0000_0000);
    if LIMIT <= count {
        return None;
    }
    if count == 0 {
        return Some(Hundredths {
            minus: false,
            count,
        });
    }
    Some(Hundredths {
        minus: 0x8000_0000_0000_0000 <= pattern,
        count,
    })
}
