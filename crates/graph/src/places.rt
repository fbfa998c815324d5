ghost use Rattle.std.specs.Prelude.{◌≡◌};
ghost use Rattle.std.specs.Iterator.{YieldsFirstBy, item_count};
ghost use Rattle.graph.specs.Members.{listed};

use super::place::Place;
use super::place_set::PlaceSet;

/// The places of a set that are still to come, in rising order.
#[derive(Drop)]
pub struct Places {
    left: PlaceSet,
}

impl Iterator for Places {
    type Item = Place;

    ghost next_gives = { YieldsFirstBy (λ p. p.index) (λ s. listed s.left) };

    ghost remaining = { item_count (λ s. listed s.left) };

    fn next(&mut self) -> Option<Place> {
        self.left.take_first()
    }
}

impl IntoIterator for PlaceSet {
    type Item = Place;

    type IntoIter = Places;

    ghost into_iter_gives = { λ s i. i.left ≡ s };

    fn into_iter(self) -> Places {
        Places { left: self }
    }
}
