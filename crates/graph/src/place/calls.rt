ghost use Rattle.std.specs.Prelude.{◌≡◌};
ghost use Rattle.graph.specs.Placed.{placed};

use super::Place;

impl Place {
    /// The place of an index below 64; no other index has one.
    pub fn new(index: usize) -> Option<Place>
        ensures { result ≡ placed index }
    {
        // Not by `then`: its closure would have to require the test again, for the invariant.
        if index < 64 {
            Some(Place { index })
        } else {
            None
        }
    }

    /// The number of the place, below 64.
    pub fn index(self) -> usize
        ensures { result ≡ self.index }
    {
        self.index
    }
}
