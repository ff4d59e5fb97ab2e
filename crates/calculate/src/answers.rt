// Document 01's number and place of each answer.
ghost use Rattle.std.specs.Prelude.{◌≡◌};
ghost use Rattle.rules.specs.Answer.{number, place};
ghost use Rattle.calculate.specs.Given.{answer_from};
ghost use Rattle.rules.specs.Answer.{Refused};

use rules::Refusal;

// The number of a refusal: no cast, since each holds a place.
fn refusal_number(r: Refusal) -> u32
    ensures defined { result ≡ number (Refused r) }
{
    match r {
        Refusal::Shape(_) => 1,
        Refusal::Func(_) => 2,
        Refusal::Domain(_) => 3,
        Refusal::Category(_) => 4,
        Refusal::Operation(_) => 5,
        Refusal::Other(_) => 6,
        Refusal::Room(_) => 7,
        Refusal::Number(_) => 8,
        Refusal::Depth(_) => 9,
    }
}

// The place of a refusal.
fn refusal_place(r: Refusal) -> u32
    ensures defined { result ≡ place (Refused r) }
{
    match r {
        Refusal::Shape(p)
        | Refusal::Func(p)
        | Refusal::Domain(p)
        | Refusal::Category(p)
        | Refusal::Operation(p)
        | Refusal::Other(p)
        | Refusal::Room(p)
        | Refusal::Number(p)
        | Refusal::Depth(p) => p,
    }
}

// The number that a caller gets.
pub fn number_of(answer: Result<(), Refusal>) -> u32
    ensures defined { result ≡ number (answer_from answer) }
{
    match answer {
        Ok(()) => 0,
        Err(r) => refusal_number(r),
    }
}

// The place that a caller gets beside it; number and place are two words of the definition, so two functions.
pub fn place_of(answer: Result<(), Refusal>) -> u32
    ensures defined { result ≡ place (answer_from answer) }
{
    match answer {
        Ok(()) => 0,
        Err(r) => refusal_place(r),
    }
}
