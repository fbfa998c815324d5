ghost use Rattle.std.specs.Fn.{FnReturnsAt};
ghost use Rattle.std.specs.Prelude.{◌≡◌, ℕ, ◌<◌, false, not, ◌&&◌, T, None, MatchOption, nat_lt};
ghost use Rattle.graph.specs.Members.{has};
ghost use Rattle.table.specs.Least.{LeastAbove, number_of};
ghost use Rattle.table.specs.Slots.{slot, passes, taken, numbered};
ghost use Rattle.table.specs.Touching.{wrote, Touched};

use super::Table;
use crate::{Job, JobNumber, Setting, SettingSet, SlotTest};
use graph::{Matrix, Place, PlaceSet};

impl Table {
    // The places of which a question is answered by yes, when it is asked what they hold.
    fn scan<F: Fn(&Option<Job>) -> bool>(&self, question: F) -> PlaceSet
        requires { F.IsAlwaysCallable question }
        ensures { (i : ℕ) → i < 64 → FnReturnsAt F.Fn question (slot self.now i) (has result i) }
    {
        let mut places = PlaceSet::empty();
        for (index, slot) in self.jobs.iter().enumerate() {
            if let Some(place) = Place::new(index) {
                if question(slot) {
                    places.insert(place);
                }
            }
        }
        places
    }

    /// The places at which a test is passed.
    pub fn places_where<Q: SlotTest>(&self, question: &Q) -> PlaceSet
        ensures { (i : ℕ) → has result i ≡ (nat_lt i 64 && Q.test question.now (slot self.now i)) }
    {
        self.scan(|slot| question.holds(slot))
    }

    /// The places of the jobs that are not finished.
    pub fn active(&self) -> PlaceSet
        ensures { (i : ℕ) → has result i ≡ passes (λ j. not j.finished) (slot self.now i) }
    {
        self.scan(|slot| slot.is_some_and(|job| !job.finished))
    }

    /// The places of the finished jobs.
    pub fn finished(&self) -> PlaceSet
        ensures { (i : ℕ) → has result i ≡ passes (λ j. j.finished) (slot self.now i) }
    {
        self.scan(|slot| slot.is_some_and(|job| job.finished))
    }

    /// The places that hold a job.
    pub fn held(&self) -> PlaceSet
        ensures { (i : ℕ) → has result i ≡ taken (slot self.now i) }
    {
        self.scan(|slot| slot.is_some())
    }

    /// The place of the job of a number, if it is held.
    pub fn place_of(&self, number: JobNumber) -> Option<Place>
        ensures { MatchOption result ((i : ℕ) → numbered number (slot self.now i) ≡ false) (λ p. T (numbered number (slot self.now p.index))) }
    {
        self.scan(|slot| slot.is_some_and(|job| job.number == number))
            .take_first()
    }

    /// A place that holds no job, if there is one.
    pub fn vacancy(&self) -> Option<Place>
        ensures { MatchOption result ((i : ℕ) → i < 64 → T (taken (slot self.now i))) (λ p. slot self.now p.index ≡ None) }
    {
        self.scan(|slot| slot.is_none()).take_first()
    }

    /// The places of the jobs that have written a setting.
    pub fn writers(&self, setting: Setting) -> PlaceSet
        ensures { (i : ℕ) → has result i ≡ passes (wrote setting.index) (slot self.now i) }
    {
        self.scan(|slot| slot.is_some_and(|job| job.writes.contains(setting)))
    }

    /// The places of the jobs that have read or written some setting of a set.
    pub fn touchers(&self, settings: SettingSet) -> PlaceSet
        ensures { (i : ℕ) → Touched settings (slot self.now i) (has result i) }
    {
        self.scan(|slot| slot.is_some_and(|job| job.touches(settings)))
    }

    /// Of the places of a set that hold a job with a number above another, the one with the least number.
    pub fn least_above(&self, among: PlaceSet, after: JobNumber) -> Option<Place>
        ensures { LeastAbove self.now among after result }
    {
        let mut places = among
            .common(self.scan(|slot| slot.is_some_and(|job| job.number > after)))
            .into_iter();
        let mut least = places.next()?;
        for place in places {
            if self.number_at(place) < self.number_at(least) {
                least = place;
            }
        }
        Some(least)
    }

    // The number of the job at a place, and 0 where there is none.
    fn number_at(&self, place: Place) -> JobNumber
        ensures { result ≡ number_of (slot self.now place.index) }
    {
        self.job(place).map_or(0, |job| job.number)
    }

    /// The job at a place, if it holds one.
    pub fn job(&self, place: Place) -> Option<Job>
        ensures { result ≡ slot self.now place.index }
    {
        self.jobs[place.index()]
    }

    /// The arrows between the places.
    pub fn arrows(&self) -> &Matrix
        ensures { result.now ≡ self.now.arrows }
    {
        &self.arrows
    }
}
