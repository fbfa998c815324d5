ghost use Rattle.std.specs.Prelude.{◌≡◌, ℕ, ◌<◌, ◌≤◌, Bool, T};
ghost use Rattle.graph.specs.Members.{has};

use super::place::Place;
use super::place_set::PlaceSet;

/// A directed graph of at most 64 places.
pub trait Graph {
    // Whether an arrow leads from the place of one index to that of another.
    ghost arrow: { Self → ℕ → ℕ → Bool };

    /// How many places there are: every arrow leads to a place below this number.
    fn places(&self) -> usize
        ensures few { result ≤ 64 }
        ensures inside { (p q : ℕ) → T (arrow self.now p q) → q < result };

    /// Whether an arrow leads from one place to another.
    fn joins(&self, from: Place, to: Place) -> bool
        ensures { result ≡ arrow self.now from.index to.index };

    /// The places that arrows lead to from a place.
    fn row(&self, from: Place) -> PlaceSet
        ensures { (k : ℕ) → has result k ≡ arrow self.now from.index k }
    {
        let mut row = PlaceSet::empty();
        // A `filter_map` over the range says no more, and its proof has to follow the indexes that it leaves out.
        for index in 0..self.places() {
            if let Some(to) = Place::new(index) {
                if self.joins(from, to) {
                    row.insert(to);
                }
            }
        }
        row
    }
}
