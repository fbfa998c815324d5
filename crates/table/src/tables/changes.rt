ghost use Rattle.std.specs.Prelude.{◌≡◌, ℕ, false, not, ◌&&◌, ◌||◌, ◌≢◌, if◌then◌else◌, Some, None, ◌==◌, nat_eq};
ghost use Rattle.graph.specs.Members.{has};
ghost use Rattle.table.specs.Changed.{AfterRead, after_write};
ghost use Rattle.table.specs.Slots.{slot, bit};

use super::Table;
use crate::{Job, Setting, SettingSet};
use graph::{Matrix, Place, PlaceSet};

impl Table {
    /// A table with no job and no arrow.
    pub fn new() -> Table
        ensures slots { (i : ℕ) → slot result i ≡ None }
        ensures bits { (p q : ℕ) → bit result p q ≡ false }
    {
        Table {
            jobs: [None; 64],
            arrows: Matrix::new(),
        }
    }

    /// Puts a job at a place, in the stead of what it held.
    pub fn enter(&mut self, place: Place, job: Job)
        ensures slots { (i : ℕ) → slot self.new i ≡ (if nat_eq i place.index then Some job else slot self.old i) }
        ensures bits { (p q : ℕ) → bit self.new p q ≡ bit self.old p q }
    {
        self.jobs[place.index()] = Some(job);
    }

    /// Takes out the job at a place, with every arrow to it and from it.
    pub fn remove(&mut self, place: Place)
        ensures slots { (i : ℕ) → slot self.new i ≡ (if nat_eq i place.index then None else slot self.old i) }
        ensures bits { (p q : ℕ) → bit self.new p q ≡ (not (p == place.index) && (not (q == place.index) && bit self.old p q)) }
    {
        self.jobs[place.index()] = None;
        self.arrows.clear(place);
    }

    /// Takes out the job at a place, after drawing an arrow past it for each arrow to it and each from it.
    pub fn forget(&mut self, place: Place)
        ensures slots { (i : ℕ) → slot self.new i ≡ (if nat_eq i place.index then None else slot self.old i) }
        ensures bits { (p q : ℕ) → bit self.new p q ≡ (not (p == place.index) && (not (q == place.index) && (bit self.old p q || (bit self.old p place.index && bit self.old place.index q)))) }
    {
        self.arrows.bridge(place);
        self.remove(place);
    }

    /// The job at a place has also read a setting: notes that, and draws an arrow to the place from each of a set.
    pub fn note_read(&mut self, place: Place, setting: Setting, from: PlaceSet)
        ensures there { AfterRead setting.index (slot self.old place.index) (slot self.new place.index) }
        ensures others { (i : ℕ) → i ≢ place.index → slot self.new i ≡ slot self.old i }
        ensures bits { (p q : ℕ) → bit self.new p q ≡ (bit self.old p q || (q == place.index && has «from» p)) }
    {
        if let Some(job) = &mut self.jobs[place.index()] {
            job.reads.insert(setting);
        }
        self.arrows.join_all(from, place);
    }

    /// The job at a place is finished and has written the settings of a set: notes that, and draws an arrow to the place from each of a set.
    pub fn finish(&mut self, place: Place, written: SettingSet, from: PlaceSet)
        ensures slots { (i : ℕ) → slot self.new i ≡ (if nat_eq i place.index then after_write written (slot self.old i) else slot self.old i) }
        ensures bits { (p q : ℕ) → bit self.new p q ≡ (bit self.old p q || (q == place.index && has «from» p)) }
    {
        if let Some(job) = &mut self.jobs[place.index()] {
            job.finished = true;
            job.writes = written;
        }
        self.arrows.join_all(from, place);
    }
}
