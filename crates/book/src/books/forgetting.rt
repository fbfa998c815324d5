ghost use Rattle.std.specs.Prelude.{◌≡◌, Some};
ghost use Rattle.model.specs.Blocker.{blocker as blocker_of};
ghost use Rattle.model.specs.Forgetting.{may_forget};
ghost use Rattle.table.specs.Slots.{slot, passes};
ghost use Rattle.book.specs.Lacks.{as_strong, FirstLack};
ghost use Rattle.book.specs.State.{model};

use super::Book;
use graph::{Place, reached_through};
use model::Refusal;
use table::{Job, JobNumber, Setting};

impl Book {
    // Whether the job at a place touched a setting at least as strongly as another job.
    fn is_as_strong(&self, place: Place, old: Job, setting: Setting) -> bool
        ensures { result ≡ passes (as_strong old setting.index) (slot self.now.table place.index) }
    {
        self.table.job(place).is_some_and(|job| {
            job.writes.contains(setting)
                || (!old.writes.contains(setting) && job.reads.contains(setting))
        })
    }

    // The first pair of an active job and a setting at which the finished job of a place lacks a stand-in.
    fn first_lack(&self, place: Place, old: Job) -> Option<(JobNumber, u8)>
        requires { slot self.now.table place.index ≡ Some old }
        ensures { FirstLack (model self.now) old.number result }
    {
        let active = self.table.active();
        let finished = self.table.finished();
        let mut last = 0;
        while let Some((start, viewer)) = self.next_job(active, last) {
            last = viewer.number;
            let reach = reached_through(self.table.arrows(), start, finished);
            let mut others = reach.common(finished);
            others.remove(place);
            if !reach.contains(place) {
                continue;
            }
            // A loop with a label, as the rules of this project ask: a setting is left by it as soon as a stand-in is found.
            'settings: for setting in old.touched() {
                for other in others {
                    if self.is_as_strong(other, old, setting) {
                        continue 'settings;
                    }
                }
                return Some((last, setting.index()));
            }
        }
        None
    }

    /// Why a finished job may not be forgotten: the smallest pair of an active job and a setting at which it lacks a
    /// stand-in. None if it may be forgotten.
    pub fn blocker(&self, job: JobNumber) -> Result<Option<(JobNumber, u8)>, Refusal>
        ensures { result ≡ blocker_of (model self.now) job }
    {
        let (place, old) = self
            .find(job)
            .filter(|(_, old)| old.finished)
            .ok_or(Refusal::NotFinished)?;
        Ok(self.first_lack(place, old))
    }

    /// Whether a job may be forgotten.
    pub fn may_forget(&self, job: JobNumber) -> bool
        ensures { result ≡ may_forget (model self.now) job }
    {
        self.blocker(job).is_ok_and(|lack| lack.is_none())
    }
}
