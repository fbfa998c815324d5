ghost use Rattle.std.specs.Prelude.{◌≡◌, ℕ, false, not, ◌&&◌, ◌||◌, ◌==◌};
ghost use Rattle.graph.specs.Counted.{count};
ghost use Rattle.graph.specs.Members.{has, Shared, Taken};

use super::place::Place;

/// A set of places.
#[derive(Clone, Copy)]
pub struct PlaceSet {
    mask: u64,
}

impl PlaceSet {
    /// The set with no place.
    pub fn empty() -> Self
        ensures { (k : ℕ) → has result k ≡ false }
    {
        PlaceSet { mask: 0 }
    }

    /// The set of one place.
    pub fn only(place: Place) -> Self
        ensures { (k : ℕ) → has result k ≡ (k == place.index) }
    {
        PlaceSet {
            mask: 1 << place.index(),
        }
    }

    /// Whether the set has a place.
    pub fn contains(self, place: Place) -> bool
        ensures { result ≡ has self place.index }
    {
        (self.mask >> place.index()) & 1 == 1
    }

    /// Adds a place.
    pub fn insert(&mut self, place: Place)
        ensures { (k : ℕ) → has self.new k ≡ (has self.old k || k == place.index) }
    {
        self.mask |= 1 << place.index();
    }

    /// Takes a place out, if the set has it.
    pub fn remove(&mut self, place: Place)
        ensures { (k : ℕ) → has self.new k ≡ (has self.old k && not (k == place.index)) }
    {
        *self = self.minus(PlaceSet::only(place));
    }

    /// How many places the set has.
    pub fn len(self) -> usize
        ensures { result ≡ count (has self) 64 }
    {
        self.mask.count_ones() as usize
    }

    /// The places of either set.
    pub fn union(self, other: PlaceSet) -> PlaceSet
        ensures { (k : ℕ) → has result k ≡ (has self k || has other k) }
    {
        PlaceSet {
            mask: self.mask | other.mask,
        }
    }

    /// The places that are in both sets.
    pub fn common(self, other: PlaceSet) -> PlaceSet
        ensures { (k : ℕ) → has result k ≡ (has self k && has other k) }
    {
        PlaceSet {
            mask: self.mask & other.mask,
        }
    }

    /// The places of this set that are not in the other.
    pub fn minus(self, other: PlaceSet) -> PlaceSet
        ensures { (k : ℕ) → has result k ≡ (has self k && not (has other k)) }
    {
        PlaceSet {
            mask: self.mask & !other.mask,
        }
    }

    /// Whether some place is in both sets.
    pub fn shares(self, other: PlaceSet) -> bool
        ensures { Shared self other result }
    {
        self.mask & other.mask != 0
    }

    /// Takes the place of the least index out of the set; an empty set has none, and stays empty.
    pub fn take_first(&mut self) -> Option<Place>
        ensures { Taken self.old self.new result }
    {
        let mask = self.mask;
        let first = Place::new(mask.trailing_zeros() as usize)?;
        self.mask = mask & (mask - 1);
        Some(first)
    }
}
