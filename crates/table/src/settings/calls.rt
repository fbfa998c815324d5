ghost use Rattle.std.specs.Prelude.{◌≡◌, ℕ, false, ◌||◌, ◌==◌};
ghost use Rattle.graph.specs.Members.{Shared};
ghost use Rattle.table.specs.Named.{setting_of};
ghost use Rattle.table.specs.Slots.{has_setting, Contained};

use super::{Setting, SettingSet};
use graph::{Place, PlaceSet};

impl Setting {
    /// The setting of an index below 64; no other index has one.
    pub fn new(index: u8) -> Option<Setting>
        ensures { result ≡ setting_of index }
    {
        // Not by `then`: its closure would have to require the test again, for the invariant.
        if index < 64 {
            Some(Setting { index })
        } else {
            None
        }
    }

    /// The number of the setting, below 64.
    pub fn index(self) -> u8
        ensures { result ≡ self.index }
    {
        self.index
    }

    /// The setting that a place of a set stands for.
    pub(super) fn at(place: Place) -> Setting
        ensures { result.index ≡ place.index }
    {
        Setting {
            index: place.index() as u8,
        }
    }

    // The place that stands for the setting in a set.
    fn place(self) -> Place
        ensures { result.index ≡ self.index }
    {
        Place::new(usize::from(self.index)).unwrap()
    }
}

impl SettingSet {
    /// The set with no setting.
    pub fn empty() -> SettingSet
        ensures { (e : ℕ) → has_setting result e ≡ false }
    {
        SettingSet {
            members: PlaceSet::empty(),
        }
    }

    /// Whether the set has a setting.
    pub fn contains(self, setting: Setting) -> bool
        ensures { result ≡ has_setting self setting.index }
    {
        self.members.contains(setting.place())
    }

    /// Adds a setting.
    pub fn insert(&mut self, setting: Setting)
        ensures { (e : ℕ) → has_setting self.new e ≡ (has_setting self.old e || e == setting.index) }
    {
        self.members.insert(setting.place());
    }

    /// Whether some setting is in both sets.
    pub fn shares(self, other: SettingSet) -> bool
        ensures { Shared self.members other.members result }
    {
        self.members.shares(other.members)
    }

    /// Whether the other set has every setting of this one.
    pub fn is_within(self, other: SettingSet) -> bool
        ensures { Contained self other result }
    {
        self.members.minus(other.members).take_first().is_none()
    }

    /// The settings of either set.
    pub fn union(self, other: SettingSet) -> SettingSet
        ensures { (e : ℕ) → has_setting result e ≡ (has_setting self e || has_setting other e) }
    {
        SettingSet {
            members: self.members.union(other.members),
        }
    }
}
