ghost use Rattle.std.specs.Prelude.{◌≡◌, Some};
ghost use Rattle.cabinet.specs.declared.unanswered.Unanswered.TheVariants.{NoMemory};
ghost use Rattle.cabinet.specs.Words.{unanswered_words};

use std::alloc::AllocError;
use std::error::Error;
use std::fmt;

/// Why a stream was not answered.
#[derive(Clone, Copy, PartialEq, Eq, Debug)]
pub enum Unanswered {
    /// There is no such book, or no such value for its settings.
    NoBook,
    /// Memory ran out.
    NoMemory,
}

// This and `Display` by hand: clauses name the error that `?` makes and the words that are printed, which derived ones
// do not promise.
impl From<AllocError> for Unanswered {
    ghost from_gives = { λ _ r. r ≡ NoMemory };

    fn from(_: AllocError) -> Unanswered {
        Unanswered::NoMemory
    }
}

impl fmt::Display for Unanswered {
    ghost output = { λ e. Some (unanswered_words e) };

    fn fmt<W: fmt::Write>(&self, f: &mut fmt::Formatter<W>) -> fmt::Result {
        match self {
            Unanswered::NoBook => write!(f, "there is no such book"),
            Unanswered::NoMemory => write!(f, "memory ran out"),
        }
    }
}

impl Error for Unanswered {}
