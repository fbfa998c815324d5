ghost use Rattle.std.specs.Prelude.{◌+◌, ◌%◌, ◌==◌};

use super::*;
use std::test::Fail;

// Ten places in a ring, which answers only whether an arrow joins two places.
struct Ring;

impl Graph for Ring {
    ghost arrow = { λ _ p q. (q == (p + 1) % 10) };

    fn places(&self) -> usize {
        10
    }

    fn joins(&self, from: Place, to: Place) -> bool {
        to.index() == (from.index() + 1) % 10
    }
}

// The place of an index.
fn at(index: usize) -> Result<Place, Fail> {
    Ok(Place::new(index).ok_or("no place")?)
}

// The graph with these arrows.
fn drawn(arrows: &[(usize, usize)]) -> Result<Matrix, Fail> {
    let mut graph = Matrix::new();
    for (from, to) in arrows {
        graph.join(at(*from)?, at(*to)?);
    }
    Ok(graph)
}

// An arrow from each place to the next.
fn chain() -> Result<Matrix, Fail> {
    let mut graph = Matrix::new();
    for index in 0..63 {
        graph.join(at(index)?, at(index + 1)?);
    }
    Ok(graph)
}

// The set of the places of these indexes; those past the last place are left out.
fn set(indexes: &[usize]) -> PlaceSet {
    let mut set = PlaceSet::empty();
    for place in indexes.iter().filter_map(|index| Place::new(*index)) {
        set.insert(place);
    }
    set
}

// Whether the set has exactly these places, which come in order.
fn lists(set: PlaceSet, indexes: &[usize]) -> bool {
    set.into_iter()
        .map(|place| place.index())
        .eq(indexes.iter().copied())
}

// Whether a path leads from one index to another.
fn path<G: Graph>(graph: &G, from: usize, to: usize) -> Result<bool, Fail> {
    Ok(reaches(graph, at(from)?, at(to)?))
}

// Whether paths through these inner places lead exactly to those.
fn lead(graph: &Matrix, from: usize, inner: &[usize], to: &[usize]) -> Result<bool, Fail> {
    Ok(lists(reached_through(graph, at(from)?, set(inner)), to))
}

#[test]
fn sets(rt: HostRuntime) {
    assert!(rt; Place::new(64).is_none());
    let small = set(&[3, 0, 64]);
    let large = set(&[63, 3]);
    assert!(rt; lists(small.union(large), &[0, 3, 63]));
    assert!(rt; lists(small.minus(large), &[0]));
    assert!(rt; small.shares(large));
    assert!(rt; !small.minus(large).shares(large));
}

#[test]
fn loop_with_tail(rt: HostRuntime) -> Result<(), Fail> {
    let graph = drawn(&[(0, 1), (1, 2), (2, 3), (3, 1), (5, 5), (4, 63)])?;
    assert!(rt; path(&graph, 0, 3)?);
    assert!(rt; path(&graph, 1, 1)?);
    assert!(rt; !path(&graph, 0, 0)?);
    assert!(rt; path(&graph, 5, 5)?);
    assert!(rt; path(&graph, 4, 63)?);
    assert!(rt; !path(&graph, 4, 5)?);
    Ok(())
}

#[test]
fn inner_places(rt: HostRuntime) -> Result<(), Fail> {
    let graph = drawn(&[(0, 1), (1, 2), (2, 3), (3, 1)])?;
    assert!(rt; lead(&graph, 0, &[], &[1])?);
    assert!(rt; lead(&graph, 0, &[2], &[1])?);
    assert!(rt; lead(&graph, 0, &[1], &[1, 2])?);
    assert!(rt; lead(&graph, 0, &[1, 2, 3], &[1, 2, 3])?);
    Ok(())
}

#[test]
fn long_ways(rt: HostRuntime) -> Result<(), Fail> {
    let graph = chain()?;
    assert!(rt; path(&graph, 0, 63)?);
    assert!(rt; !path(&graph, 63, 0)?);
    assert!(rt; path(&Ring, 7, 3)?);
    assert!(rt; path(&Ring, 7, 7)?);
    assert!(rt; !path(&Ring, 7, 10)?);
    Ok(())
}
