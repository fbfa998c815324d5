ghost use Rattle.std.specs.Prelude.{◌≡◌};
ghost use Rattle.model.specs.Book.{held, finished};
ghost use Rattle.book.specs.State.{model};
ghost use Rattle.book.specs.Listed.{left};

use super::{Among, Jobs};
use crate::Book;

impl Book {
    /// The numbers of the held jobs, in rising order.
    pub fn held_jobs(&self) -> Jobs<'_>
        ensures { left result ≡ held (model self.now) }
    {
        Jobs {
            book: self,
            among: Among::Held,
            after: 0,
        }
    }

    /// The numbers of the finished jobs, in rising order.
    pub fn finished_jobs(&self) -> Jobs<'_>
        ensures { left result ≡ finished (model self.now) }
    {
        Jobs {
            book: self,
            among: Among::Finished,
            after: 0,
        }
    }
}
