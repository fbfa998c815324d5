ghost use Rattle.policies.specs.Made.{pile_does};
ghost use Rattle.std.proofs.Common.{rules};

use book::{Book, Policy};
use table::JobNumber;

/// Two policies, of which the second is consulted only where the first answers none.
#[derive(Clone, Copy)]
pub struct Pile<P, Q> {
    pub first: P,
    pub second: Q,
}

impl<P: Policy, Q: Policy> Policy for Pile<P, Q> {
    ghost does = { pile_does P.Policy.does Q.Policy.does };

    ghost lawful = { Prim.search rules };

    fn consult(&mut self, book: &Book) -> Option<JobNumber> {
        // A `match`: the contract of `or_else` leaves open what becomes of a borrow that a closure holds which is not
        // called, so with it the state of the second policy is not known where the first one answers.
        match self.first.consult(book) {
            Some(job) => Some(job),
            None => self.second.consult(book),
        }
    }

    fn is_thorough(&self) -> bool {
        self.first.is_thorough() || self.second.is_thorough()
    }
}
