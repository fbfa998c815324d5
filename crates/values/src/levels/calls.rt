ghost use Rattle.std.specs.Prelude.{◌≡◌, ℕ, refl};
ghost use Rattle.values.specs.Levels.{level_kind, level_of};

use super::Level;
use crate::{Kind, put, word_from};
use model::Refusal;

/// The highest level, in per mille.
const HIGHEST: u16 = 1000;

impl Level {
    /// The level of so many per mille, if there is one.
    pub fn new(value: u16) -> Option<Level>
        ensures { result ≡ level_of value }
    {
        // Not by `then`: its closure would have to require the test again, for the invariant.
        if value <= HIGHEST {
            Some(Level { value })
        } else {
            None
        }
    }

    /// The level in per mille.
    pub fn value(self) -> u16
        ensures { result ≡ self.value }
    {
        self.value
    }
}

/// Two bytes, the high one first.
impl Kind for Level {
    const WIDTH: usize = 2;

    ghost WIDTH = { level_kind.width };

    ghost kind = { level_kind };

    ghost is_width = { refl };

    fn read(bytes: &[u8]) -> Option<Level> {
        let [high, low] = bytes else {
            return None;
        };
        Level::new(word_from(*high, *low))
    }

    fn write(self, out: &mut [u8], at: usize) -> Result<usize, Refusal> {
        put(&self.value.to_be_bytes(), out, at)
    }
}
