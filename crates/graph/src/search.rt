ghost use Rattle.std.specs.Prelude.{ℕ, T};
ghost use Rattle.graph.specs.Members.{has};
ghost use Rattle.graph.specs.Walk.{Walk, Answers, anywhere};

use super::graph::Graph;
use super::place::Place;
use super::place_set::PlaceSet;

// Places that a path leads to: all of them, unless a place of `stop` is among those found.
fn search<G: Graph>(graph: &G, from: Place, stop: PlaceSet) -> PlaceSet
    ensures sound { (to : ℕ) → T (has result to) → Walk (G.arrow graph.now) anywhere from.index to }
    ensures full { ((k : ℕ) → T (has result k) → T (has stop k) → ⊥) → (to : ℕ) → Walk (G.arrow graph.now) anywhere from.index to → T (has result to) }
{
    let mut seen = graph.row(from);
    let mut todo = seen;
    while !seen.shares(stop) {
        let Some(next) = todo.take_first() else {
            break;
        };
        let fresh = graph.row(next).minus(seen);
        seen = seen.union(fresh);
        todo = todo.union(fresh);
    }
    seen
}

/// The places that a path of one arrow or more leads to.
pub fn reached<G: Graph>(graph: &G, from: Place) -> PlaceSet
    ensures { (to : ℕ) → Answers (G.arrow graph.now) anywhere from.index to (has result to) }
{
    search(graph, from, PlaceSet::empty())
}

/// Whether a path of one arrow or more leads from one place to another.
pub fn reaches<G: Graph>(graph: &G, from: Place, to: Place) -> bool
    ensures { Answers (G.arrow graph.now) anywhere from.index to.index result }
{
    search(graph, from, PlaceSet::only(to)).contains(to)
}
