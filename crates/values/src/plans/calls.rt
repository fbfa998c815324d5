ghost use Rattle.std.specs.Prelude.{◌≡◌, ℕ, refl};
ghost use Rattle.values.specs.Plans.{plan_kind, plan_of};

use super::Plan;
use crate::{Kind, Level, put, word_from};
use model::Refusal;

/// The last minute at which a lamp may go off, counted from noon.
const LAST_MINUTE: u16 = 1439;

impl Plan {
    /// The plan that goes on, then off, at a level, if the minutes are in order and in range.
    pub fn new(on: u16, off: u16, level: Level) -> Option<Plan>
        ensures { result ≡ plan_of on off level }
    {
        // Not by `then`: its closure would have to require the test again, for the invariant.
        if on < off && off <= LAST_MINUTE {
            Some(Plan { on, off, level })
        } else {
            None
        }
    }

    /// The minute at which the lamp goes on.
    pub fn on(self) -> u16
        ensures { result ≡ self.on }
    {
        self.on
    }

    /// The minute at which the lamp goes off.
    pub fn off(self) -> u16
        ensures { result ≡ self.off }
    {
        self.off
    }

    /// How brightly the lamp burns between the two.
    pub fn level(self) -> Level
        ensures { result ≡ self.level }
    {
        self.level
    }
}

/// Six bytes: the minute on, the minute off and the level, each two bytes, the high one first.
impl Kind for Plan {
    const WIDTH: usize = 6;

    ghost WIDTH = { plan_kind.width };

    ghost kind = { plan_kind };

    ghost is_width = { refl };

    fn read(bytes: &[u8]) -> Option<Plan> {
        let [a, b, c, d, e, f] = bytes else {
            return None;
        };
        let level = Level::new(word_from(*e, *f))?;
        Plan::new(word_from(*a, *b), word_from(*c, *d), level)
    }

    fn write(self, out: &mut [u8], at: usize) -> Result<usize, Refusal> {
        let [a, b] = self.on.to_be_bytes();
        let [c, d] = self.off.to_be_bytes();
        let [e, f] = self.level.value().to_be_bytes();
        put(&[a, b, c, d, e, f], out, at)
    }
}
