ghost use Rattle.std.specs.Prelude.{◌≡◌};
ghost use Rattle.model.specs.Policies.{Policy as Doing, Lawful};
ghost use Rattle.book.specs.State.{model};

use crate::Book;
use table::JobNumber;

/// Says which job a sweep forgets next.
///
/// The ghost record `does` says what an implementation answers and what it is then, by itself and the book alone,
/// and whether it is thorough.
pub trait Policy {
    ghost does: { Doing Self };

    /// The job to forget next, or none.
    fn consult(&mut self, book: &Book) -> Option<JobNumber>
        ensures answers { result ≡ does.answer self.old (model book.now) }
        ensures moves { self.new ≡ does.next self.old (model book.now) };

    /// Whether the policy names a job as long as one may be forgotten.
    fn is_thorough(&self) -> bool
        ensures { result ≡ does.thorough self.now };

    // Every answer may be forgotten in the book as shown; a thorough policy answers none only when no job may be
    // forgotten; whether it is thorough never changes.
    ghost lawful: { Lawful does };
}
