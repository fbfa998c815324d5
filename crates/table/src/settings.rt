ghost use Rattle.std.specs.Prelude.{◌<◌};

use graph::PlaceSet;

mod calls;
mod each;

pub use each::Settings;

/// One of the settings of a segment.
#[derive(Clone, Copy)]
pub struct Setting {
    index: u8,
    ghost small: { index < 64 },
}

/// A set of settings, kept as the set of the places of their indexes.
// A type of its own beside `PlaceSet`, and `Setting` beside `Place`: settings may grow past 64 where places do not.
#[derive(Clone, Copy)]
pub struct SettingSet {
    members: PlaceSet,
}
