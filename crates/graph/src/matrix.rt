ghost use Rattle.std.specs.Prelude.{◌≡◌, ℕ, false, not, ◌&&◌, ◌||◌, length, ◌==◌};
ghost use Rattle.graph.specs.Drawn.{drawn};
ghost use Rattle.graph.specs.Members.{has};

use super::graph::Graph;
use super::place::Place;
use super::place_set::PlaceSet;

/// A graph of 64 places that holds, for each place, the set of those that its arrows lead to.
#[derive(Clone, Copy)]
pub struct Matrix {
    rows: [PlaceSet; 64],
    ghost sized: { length rows ≡ 64 },
}

impl Matrix {
    /// The graph with no arrow.
    pub fn new() -> Self
        ensures { (p q : ℕ) → drawn result.rows p q ≡ false }
    {
        Matrix {
            rows: [PlaceSet::empty(); 64],
        }
    }

    /// Draws an arrow.
    pub fn join(&mut self, from: Place, to: Place)
        ensures { (p q : ℕ) → drawn self.new.rows p q ≡ (drawn self.old.rows p q || (p == from.index && q == to.index)) }
    {
        self.rows[from.index()].insert(to);
    }

    /// Draws an arrow to a place from each place of a set.
    pub fn join_all(&mut self, from: PlaceSet, to: Place)
        ensures { (p q : ℕ) → drawn self.new.rows p q ≡ (drawn self.old.rows p q || (q == to.index && has «from» p)) }
    {
        for place in from {
            self.join(place, to);
        }
    }

    /// Takes out every arrow to a place and from it.
    pub fn clear(&mut self, place: Place)
        ensures { (p q : ℕ) → drawn self.new.rows p q ≡ (not (p == place.index) && (not (q == place.index) && drawn self.old.rows p q)) }
    {
        for row in self.rows.iter_mut() {
            row.remove(place);
        }
        self.rows[place.index()] = PlaceSet::empty();
    }

    /// For each arrow to a place and each from it, draws one from the first's start to the second's end.
    pub fn bridge(&mut self, place: Place)
        ensures { (p q : ℕ) → drawn self.new.rows p q ≡ (drawn self.old.rows p q || (drawn self.old.rows p place.index && drawn self.old.rows place.index q)) }
    {
        let onward = self.rows[place.index()];
        for row in self.rows.iter_mut() {
            if row.contains(place) {
                *row = row.union(onward);
            }
        }
    }
}

impl Graph for Matrix {
    ghost arrow = { λ m. drawn m.rows };

    fn places(&self) -> usize {
        self.rows.len()
    }

    fn joins(&self, from: Place, to: Place) -> bool {
        self.row(from).contains(to)
    }

    fn row(&self, from: Place) -> PlaceSet {
        self.rows[from.index()]
    }
}
