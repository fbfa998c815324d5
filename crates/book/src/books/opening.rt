ghost use Rattle.std.specs.Prelude.{◌≡◌, List, IfOk, Ok, Err, MatchResult};
ghost use Rattle.model.specs.Calls.{opened};
ghost use Rattle.model.specs.Laws.{Sound};
ghost use Rattle.book.specs.State.{model};

use super::Book;
use model::Refusal;
use table::Table;
use values::Kind;

/// The most settings that a book can have.
const MOST_SETTINGS: usize = 64;

/// The most jobs that a book can let be active at once.
const MOST_ACTIVE: usize = 32;

impl Book {
    /// A book without jobs, for a row of so many settings, that lets so many jobs be active at once.
    ///
    /// The laws of every run hold of it: whatever calls are made on the book and any row of values.
    pub fn open<K: Kind>(settings: usize, limit: usize) -> Result<Book, Refusal>
        ensures answers { MatchResult result (λ b. opened settings limit ≡ Ok (model b)) (λ e. opened settings limit ≡ Err e) }
        ensures sound { IfOk result (λ b. (row : List K) → Sound K.Kind.kind (model b) row) }
    {
        if settings < 1 || settings > MOST_SETTINGS {
            return Err(Refusal::SettingsRange);
        }
        if limit < 1 || limit > MOST_ACTIVE {
            return Err(Refusal::LimitRange);
        }
        Ok(Book {
            settings: settings as u8,
            limit: limit as u8,
            last: 0,
            table: Table::new(),
        })
    }
}
