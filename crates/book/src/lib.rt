// The definitions and the theorems of a library book stand in specs/; how its calls refuse is declared here.
#![tactic(auto)]

ghost use Rattle.std.specs.Prelude.{◌≡◌};
ghost use Rattle.book.specs.declared.BookError.TheVariants.{Refused};

use record::Refusal;

// Why a call on a book is refused: a bad record in the book with its ordinal, from 1; or another refusal.
#[derive(Clone, Copy)]
pub enum BookError {
    BadRecord(Refusal, usize),
    Refused(Refusal),
}

impl From<Refusal> for BookError {
    ghost from_gives = { λ refusal error. error ≡ Refused refusal };

    fn from(refusal: Refusal) -> BookError {
        BookError::Refused(refusal)
    }
}
