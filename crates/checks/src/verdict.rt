// Why a listing is not accepted, and the number and place that a caller gets for it.
ghost use Rattle.std.specs.Prelude.{◌≡◌, Err};
ghost use Rattle.rules.specs.declared.Refusal.TheVariants.{Shape};
ghost use Rattle.checks.specs.declared.verdict.CheckRefusal.TheVariants.{Engine};
ghost use Rattle.checks.specs.Check.{number_of, place_of};

use calculate::answers::{number_of, place_of};
use rules::Refusal;
use shape::BadTable;

// A refusal of the engine up to dispatch; or the lowest object on a loop; or the first bad line.
#[derive(Clone, Copy)]
pub enum CheckRefusal {
    Engine(Refusal),
    Loop(u32),
    Listing(usize),
}

impl From<Refusal> for CheckRefusal {
    ghost from_gives = { λ x refusal. refusal ≡ Engine x };

    fn from(x: Refusal) -> CheckRefusal {
        CheckRefusal::Engine(x)
    }
}

impl From<BadTable> for CheckRefusal {
    ghost from_gives = { λ bad refusal. refusal ≡ Engine (Shape bad.table) };

    fn from(bad: BadTable) -> CheckRefusal {
        CheckRefusal::Engine(Refusal::Shape(bad.table))
    }
}

impl CheckRefusal {
    // The number that a caller gets.
    pub fn number(self) -> u64
        ensures defined { result ≡ number_of (Err self) }
    {
        match self {
            CheckRefusal::Engine(x) => u64::from(number_of(Err(x))),
            CheckRefusal::Loop(_) => 10,
            CheckRefusal::Listing(_) => 15,
        }
    }

    // The place that a caller gets beside it.
    pub fn place(self) -> u64
        ensures defined { result ≡ place_of (Err self) }
    {
        match self {
            CheckRefusal::Engine(x) => u64::from(place_of(Err(x))),
            CheckRefusal::Loop(object) => u64::from(object),
            CheckRefusal::Listing(line) => line as u64,
        }
    }
}
