ghost use Rattle.std.specs.Prelude.{◌≡◌, ◌+◌, false, T, if◌then◌else◌, Ok, Err};
ghost use Rattle.model.specs.declared.refusals.Refusal.TheVariants.{BookFull};
ghost use Rattle.model.specs.Book.{is_held, forgotten};
ghost use Rattle.model.specs.Sweeps.{sweep_answer, sweep_next, sweep_book, SweepExact};
ghost use Rattle.model.specs.Begin.{limit_reached, numbers_spent, is_full, with_new_job, begin_answer, begin_next, begin_book, BeginExact};
ghost use Rattle.book.specs.State.{model};

use super::Book;
use crate::Policy;
use model::Refusal;
use table::{Job, JobNumber, SettingSet};

/// The greatest job number.
const LAST_NUMBER: JobNumber = 65_535;

/// How many jobs a book can hold.
const PLACES: usize = 64;

impl Book {
    // Whether every place is taken.
    fn is_full(&self) -> bool
        ensures { result ≡ is_full (model self.now) }
    {
        self.table.held().len() == PLACES
    }

    // Whether as many jobs are active as may be.
    fn limit_reached(&self) -> bool
        ensures { result ≡ limit_reached (model self.now) }
    {
        self.table.active().len() >= usize::from(self.limit)
    }

    // Enters a new job with the next number, if there is a place for it.
    fn enter_next(&mut self) -> Result<JobNumber, Refusal>
        requires { (limit_reached (model self.old) ≡ false) × (numbers_spent (model self.old) ≡ false) }
        ensures answers { result ≡ (if is_full (model self.old) then Err BookFull else Ok (self.old.last + 1)) }
        ensures leaves { model self.new ≡ (if is_full (model self.old) then model self.old else with_new_job (model self.old)) }
    {
        let place = self.table.vacancy().ok_or(Refusal::BookFull)?;
        let number = self.last + 1;
        let job = Job {
            number,
            finished: false,
            reads: SettingSet::empty(),
            writes: SettingSet::empty(),
        };
        self.last = number;
        self.table.enter(place, job);
        Ok(number)
    }

    // Forgets a job that is held.
    fn forget(&mut self, job: JobNumber)
        ensures { T (is_held (model self.old) job) → model self.new ≡ forgotten (model self.old) job }
    {
        if let Some(place) = self.table.place_of(job) {
            self.table.forget(place);
        }
    }

    /// Asks a policy for a job to forget and forgets it, until the policy answers none. Answers how many were forgotten.
    pub fn sweep<P: Policy>(&mut self, policy: &mut P) -> usize
        ensures answers { result ≡ sweep_answer P.Policy.does policy.old (model self.old) }
        ensures moves { policy.new ≡ sweep_next P.Policy.does policy.old (model self.old) }
        ensures leaves { model self.new ≡ sweep_book P.Policy.does policy.old (model self.old) }
        ensures exact { SweepExact P.Policy.does policy.old (model self.old) }
    {
        let mut count = 0;
        // No iterator of answers: each question is asked of the book that the last answer left.
        while let Some(job) = policy.consult(self) {
            self.forget(job);
            count += 1;
        }
        count
    }

    /// Begins a job, and answers its number. A full book is swept first, under a policy.
    pub fn begin<P: Policy>(&mut self, policy: &mut P) -> Result<JobNumber, Refusal>
        ensures answers { result ≡ begin_answer P.Policy.does policy.old (model self.old) }
        ensures moves { policy.new ≡ begin_next P.Policy.does policy.old (model self.old) }
        ensures leaves { model self.new ≡ begin_book P.Policy.does policy.old (model self.old) }
        ensures exact { BeginExact P.Policy.does policy.old (model self.old) }
    {
        if self.limit_reached() {
            return Err(Refusal::ActiveLimit);
        }
        if self.last == LAST_NUMBER {
            return Err(Refusal::NumbersSpent);
        }
        if self.is_full() {
            let _ = self.sweep(policy);
        }
        self.enter_next()
    }
}
