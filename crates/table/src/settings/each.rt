ghost use Rattle.std.specs.Prelude.{◌≡◌};
ghost use Rattle.std.specs.Iterator.{YieldsFirstBy, item_count};
ghost use Rattle.graph.specs.Members.{listed};

use super::{Setting, SettingSet};
use graph::Places;

/// The settings of a set that are still to come, in rising order.
#[derive(Drop)]
pub struct Settings {
    left: Places,
}

impl Iterator for Settings {
    type Item = Setting;

    ghost next_gives = { YieldsFirstBy (λ s. s.index) (λ i. listed i.left.left) };

    ghost remaining = { item_count (λ i. listed i.left.left) };

    fn next(&mut self) -> Option<Setting> {
        self.left.next().map(|place| Setting::at(place))
    }
}

impl IntoIterator for SettingSet {
    type Item = Setting;

    type IntoIter = Settings;

    ghost into_iter_gives = { λ s i. i.left.left ≡ s.members };

    fn into_iter(self) -> Settings {
        Settings {
            left: self.members.into_iter(),
        }
    }
}
