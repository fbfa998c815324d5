ghost use Rattle.std.specs.Prelude.{◌≡◌};
ghost use Rattle.policies.specs.Doing.{never_does, clear_does, stale_does, thorough_does};
ghost use Rattle.std.proofs.Common.{rules};
ghost use Rattle.model.specs.Policies.{clear, stale, thorough_one, unreached};
ghost use Rattle.book.specs.State.{model};
ghost use Rattle.model.proofs.Policies.{clear_lawful, stale_lawful, thorough_lawful};
ghost use Rattle.policies.specs.Uncounted.{plain_lawful};

use crate::overwritten::is_overwritten;
use book::{Book, Policy};
use table::JobNumber;

/// Forgets nothing.
#[derive(Clone, Copy)]
pub struct Never;

impl Policy for Never {
    ghost does = { never_does };

    ghost lawful = { Prim.search rules };

    fn consult(&mut self, _book: &Book) -> Option<JobNumber> {
        None
    }

    fn is_thorough(&self) -> bool {
        false
    }
}

// Whether no path from an active job reaches the job.
fn is_unreached(book: &Book, job: JobNumber) -> bool
    ensures { result ≡ unreached (model book.now) job }
{
    !book.is_reached(job)
}

/// Forgets the smallest finished job that no path from an active job reaches.
#[derive(Clone, Copy)]
pub struct Clear;

impl Policy for Clear {
    ghost does = { clear_does };

    ghost lawful = { plain_lawful clear clear_lawful };

    fn consult(&mut self, book: &Book) -> Option<JobNumber> {
        book.finished_jobs().find(|job| is_unreached(book, *job))
    }

    fn is_thorough(&self) -> bool {
        false
    }
}

/// Forgets the smallest finished job whose every touched setting was written by a finished job at the head of one of
/// its arrows.
#[derive(Clone, Copy)]
pub struct Stale;

impl Policy for Stale {
    ghost does = { stale_does };

    ghost lawful = { plain_lawful stale stale_lawful };

    fn consult(&mut self, book: &Book) -> Option<JobNumber> {
        book.finished_jobs().find(|job| is_overwritten(book, *job))
    }

    fn is_thorough(&self) -> bool {
        false
    }
}

/// Forgets the smallest job that may be forgotten, as long as there is one.
#[derive(Clone, Copy)]
pub struct Thorough;

impl Policy for Thorough {
    ghost does = { thorough_does };

    ghost lawful = { plain_lawful thorough_one thorough_lawful };

    fn consult(&mut self, book: &Book) -> Option<JobNumber> {
        book.finished_jobs().find(|job| book.may_forget(*job))
    }

    fn is_thorough(&self) -> bool {
        true
    }
}
