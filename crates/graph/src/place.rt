ghost use Rattle.std.specs.Prelude.{◌<◌};

mod calls;

/// One of the 64 places of a graph.
#[derive(Clone, Copy, PartialEq, Eq, Debug)]
pub struct Place {
    index: usize,
    ghost small: { index < 64 },
}
