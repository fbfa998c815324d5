ghost use Rattle.std.specs.Prelude.{ℕ, ◌<◌, ◌≤◌};

use crate::Level;

/// When a lamp burns and how brightly: from one minute to a later one, counted from noon, at a level.
#[derive(Clone, Copy, PartialEq, Eq, Debug)]
pub struct Plan {
    on: u16,
    off: u16,
    level: Level,
    ghost ordered: { on < off },
    ghost ranged: { off ≤ 1439 },
}

mod calls;
