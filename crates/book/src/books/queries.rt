ghost use Rattle.std.specs.Prelude.{◌≡◌, ℕ, false, ◌&&◌, nat_lt, None, MatchOption};
ghost use Rattle.model.specs.Lists.{first_of, some_of};
ghost use Rattle.model.specs.Book.{is_held, held, active, finished, path, written_by, touched_by, written_after};
ghost use Rattle.graph.specs.Walk.{anywhere, Answers};
ghost use Rattle.table.specs.Slots.{bit, has_setting};
ghost use Rattle.table.specs.Least.{eligible};
ghost use Rattle.book.specs.Next.{Next, NextAt};
ghost use Rattle.book.specs.View.{shown};
ghost use Rattle.book.specs.State.{model, StandsAt, FoundAt};

use super::Book;
use graph::{Graph, Place, PlaceSet, reaches};
use table::{Job, JobNumber, Setting, SettingSet};

impl Book {
    /// How many settings the book has.
    pub fn settings(&self) -> u8
        ensures { result ≡ (model self.now).settings }
    {
        self.settings
    }

    // Of the jobs at the places of a set, the one of the least number above another, with its place.
    pub(super) fn next_job(&self, places: PlaceSet, after: JobNumber) -> Option<(Place, Job)>
        ensures { MatchOption result ((i : ℕ) → eligible self.now.table places after i ≡ false) (λ r. NextAt self.now.table places after r.0.index r.1) }
    {
        let place = self.table.least_above(places, after)?;
        Some((place, self.table.job(place)?))
    }

    // Of the jobs at the places of a set, the least number above another.
    fn next_number(&self, places: PlaceSet, after: JobNumber) -> Option<JobNumber>
        ensures { Next self.now.table places after result }
    {
        let (_, job) = self.next_job(places, after)?;
        Some(job.number)
    }

    /// The least number above another that a held job has: the held jobs in turn.
    pub fn next_held(&self, after: JobNumber) -> Option<JobNumber>
        ensures { result ≡ first_of (nat_lt after) (held (model self.now)) }
    {
        self.next_number(self.table.held(), after)
    }

    /// The least number above another that a finished job has: the finished jobs in turn.
    pub fn next_finished(&self, after: JobNumber) -> Option<JobNumber>
        ensures { result ≡ first_of (nat_lt after) (finished (model self.now)) }
    {
        self.next_number(self.table.finished(), after)
    }

    // The places of two jobs, if both are held.
    fn ends(&self, from: JobNumber, to: JobNumber) -> Option<(Place, Place)>
        ensures { MatchOption result ((is_held (model self.now) «from» && is_held (model self.now) to) ≡ false) (λ e. StandsAt self.now «from» e.0.index × StandsAt self.now to e.1.index) }
    {
        Some((self.table.place_of(from)?, self.table.place_of(to)?))
    }

    /// Whether an arrow leads from one job to another.
    pub fn joins(&self, from: JobNumber, to: JobNumber) -> bool
        ensures { result ≡ (model self.now).arrow «from» to }
    {
        self.ends(from, to)
            .is_some_and(|(start, end)| self.table.arrows().joins(start, end))
    }

    // Whether a path leads from one place to another.
    fn leads(&self, start: Place, end: Place) -> bool
        ensures { Answers (bit self.now.table) anywhere start.index end.index result }
    {
        reaches(self.table.arrows(), start, end)
    }

    /// Whether a path leads from one job to another.
    pub fn reaches(&self, from: JobNumber, to: JobNumber) -> bool
        ensures { result ≡ path (model self.now) «from» to }
    {
        self.ends(from, to)
            .is_some_and(|(start, end)| self.leads(start, end))
    }

    /// Whether a path leads to a job from an active one.
    pub fn is_reached(&self, job: JobNumber) -> bool
        ensures { result ≡ some_of (λ j. path (model self.now) j job) (active (model self.now)) }
    {
        // `is_some_and` of a closure, with `any` of another in it, says no more than this loop.
        let Some(place) = self.table.place_of(job) else {
            return false;
        };
        for start in self.table.active() {
            if self.leads(start, place) {
                return true;
            }
        }
        false
    }

    /// Whether a job has written a setting.
    pub fn has_written(&self, job: JobNumber, setting: u8) -> bool
        ensures { result ≡ written_by (model self.now) job setting }
    {
        Setting::new(setting).is_some_and(|written| self.written(job).contains(written))
    }

    // The settings that a job has written: none if it is not held.
    fn written(&self, job: JobNumber) -> SettingSet
        ensures { (e : ℕ) → has_setting result e ≡ written_by (model self.now) job e }
    {
        self.held_job(job)
            .map_or(SettingSet::empty(), |found| found.writes)
    }

    /// Whether a job has read or written a setting.
    pub fn has_touched(&self, job: JobNumber, setting: u8) -> bool
        ensures { result ≡ touched_by (model self.now) job setting }
    {
        Setting::new(setting).is_some_and(|touched| self.touched(job).contains(touched))
    }

    /// The settings that a job has read or written: none if it is not held.
    pub fn touched(&self, job: JobNumber) -> SettingSet
        ensures { (e : ℕ) → has_setting result e ≡ touched_by (model self.now) job e }
    {
        self.held_job(job)
            .map_or(SettingSet::empty(), |found| found.touched())
    }

    /// The settings that finished jobs at the heads of a job's arrows have written.
    pub fn written_after(&self, job: JobNumber) -> SettingSet
        ensures { (e : ℕ) → has_setting result e ≡ written_after (model self.now) job e }
    {
        let mut written = SettingSet::empty();
        // What is written so far is the answer, which `?` could not give.
        let Some(place) = self.table.place_of(job) else {
            return written;
        };
        for head in self.table.arrows().row(place).common(self.table.finished()) {
            if let Some(found) = self.table.job(head) {
                written = written.union(found.writes);
            }
        }
        written
    }

    // A held job, with its place.
    pub(super) fn find(&self, job: JobNumber) -> Option<(Place, Job)>
        ensures { MatchOption result ((model self.now).job job ≡ None) (λ r. FoundAt self.now job r.0.index r.1) }
    {
        let place = self.table.place_of(job)?;
        Some((place, self.table.job(place)?))
    }

    // What a job has done, if it is held.
    fn held_job(&self, job: JobNumber) -> Option<Job>
        ensures { shown result ≡ (model self.now).job job }
    {
        self.find(job).map(|(_, found)| found)
    }
}
