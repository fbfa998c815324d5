ghost use Rattle.std.specs.Prelude.{◌≡◌, ℕ, ◌||◌, ◌==◌};
ghost use Rattle.graph.specs.Members.{has};
ghost use Rattle.graph.specs.Walk.{Answers, through};

use super::graph::Graph;
use super::place::Place;
use super::place_set::PlaceSet;
use super::search::reached;

/// The arrows of a graph that leave `start` or a place of `inner`.
#[derive(Drop)]
pub struct Through<'a, G> {
    pub graph: &'a G,
    pub start: Place,
    pub inner: PlaceSet,
}

impl<G> Through<'_, G> {
    // Whether the arrows that leave a place are kept.
    fn keeps(&self, from: Place) -> bool
        ensures { result ≡ (from.index == self.now.start.index || has self.now.inner from.index) }
    {
        from == self.start || self.inner.contains(from)
    }
}

impl<G: Graph> Graph for Through<'_, G> {
    ghost arrow = { λ t. through (G.Graph.arrow t.graph.now) t.start.index (has t.inner) };

    fn places(&self) -> usize {
        self.graph.places()
    }

    fn joins(&self, from: Place, to: Place) -> bool {
        self.keeps(from) && self.graph.joins(from, to)
    }

    fn row(&self, from: Place) -> PlaceSet {
        if self.keeps(from) {
            self.graph.row(from)
        } else {
            PlaceSet::empty()
        }
    }
}

/// The places that a path leads to on which every place strictly between its ends is in `inner`.
pub fn reached_through<G: Graph>(graph: &G, from: Place, inner: PlaceSet) -> PlaceSet
    ensures { (to : ℕ) → Answers (G.arrow graph.now) (has inner) from.index to (has result to) }
{
    let through = Through {
        graph,
        start: from,
        inner,
    };
    reached(&through, from)
}
