ghost use Rattle.std.specs.Prelude.{ℕ, ◌≤◌};

/// The brightness of a lamp, 0 to 1000 per mille.
#[derive(Clone, Copy, PartialEq, Eq, Debug)]
pub struct Level {
    value: u16,
    ghost ranged: { value ≤ 1000 },
}

mod calls;
