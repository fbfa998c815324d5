ghost use Rattle.std.specs.Prelude.{◌≡◌, Bool, Option};
ghost use Rattle.table.specs.declared.jobs.Job.{Job};

use crate::Job;

/// A yes-or-no question about what a place holds.
pub trait SlotTest {
    // The answer.
    ghost test: { Self → Option Job → Bool };

    /// Whether what a place holds passes the test.
    fn holds(&self, slot: &Option<Job>) -> bool
        ensures { result ≡ test self.now slot.now };
}
