ghost use Rattle.std.specs.Prelude.{◌≡◌, Ok, Err, MatchResult};
ghost use Rattle.model.specs.Policies.{spacing};
ghost use Rattle.policies.specs.Made.{spaced_does, spacing_of};
ghost use Rattle.std.proofs.Common.{rules};

use super::Spaced;
use book::{Book, Policy};
use model::Refusal;
use table::JobNumber;

impl<P: Drop> Spaced<P> {
    /// A policy that passes every k-th question on; there is no 0th.
    pub fn new(k: u8, under: P) -> Result<Spaced<P>, Refusal>
        ensures { MatchResult result (λ s. spacing k under ≡ Ok (spacing_of s)) (λ e. spacing k under ≡ Err e) }
    {
        if k == 0 {
            return Err(Refusal::SpacingZero);
        }
        Ok(Spaced {
            every: k,
            kept: 0,
            under,
        })
    }
}

impl<P: Policy> Policy for Spaced<P> {
    ghost does = { spaced_does P.Policy.does };

    ghost lawful = { Prim.search rules };

    fn consult(&mut self, book: &Book) -> Option<JobNumber> {
        if self.kept < self.every.saturating_sub(1) {
            self.kept += 1;
            return None;
        }
        self.kept = 0;
        self.under.consult(book)
    }

    fn is_thorough(&self) -> bool {
        self.every == 1 && self.under.is_thorough()
    }
}
