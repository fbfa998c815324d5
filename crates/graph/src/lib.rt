//! Path search in directed graphs of at most 64 places.

#![tactic(auto)]

mod graph;
mod matrix;
mod place;
mod place_set;
mod places;
mod search;
mod through;

pub use graph::Graph;
pub use matrix::Matrix;
pub use place::Place;
pub use place_set::PlaceSet;
pub use places::Places;
pub use search::{reached, reaches};
pub use through::{Through, reached_through};

#[cfg(test)]
mod tests;
