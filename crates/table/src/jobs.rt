ghost use Rattle.std.specs.Prelude.{◌≡◌, ℕ};
ghost use Rattle.table.specs.Slots.{has_setting};
ghost use Rattle.table.specs.Touching.{touched, touched_any};

use crate::SettingSet;

/// The number of a job: 1, 2, 3 and so on, in the order of their begins.
pub type JobNumber = u16;

/// A held job: its number, whether it is finished, and which settings it has read and written.
// `finished` is no flag of `writes`: what a job wrote is asked of every job, finished or not, and an `Option` would only
// have each question take it apart. That an active job has written nothing is an invariant of the book.
#[derive(Clone, Copy)]
pub struct Job {
    pub number: JobNumber,
    pub finished: bool,
    pub reads: SettingSet,
    pub writes: SettingSet,
}

impl Job {
    /// The settings that the job has read or written.
    pub fn touched(self) -> SettingSet
        ensures { (e : ℕ) → has_setting result e ≡ touched e self }
    {
        self.reads.union(self.writes)
    }

    /// Whether the job has read or written some setting of a set.
    pub fn touches(self, settings: SettingSet) -> bool
        ensures { result ≡ touched_any settings self }
    {
        settings.shares(self.touched())
    }
}
