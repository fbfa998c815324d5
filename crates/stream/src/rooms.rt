ghost use Rattle.std.specs.Prelude.{◌≡◌};
ghost use Rattle.stream.specs.Lines.{lines_room};

use crate::output::LINE_ROOM;

/// The most bytes that a stream may have.
const LONGEST: usize = 65_535;

/// How many bytes suffice for the lines of a stream of so many bytes.
pub fn lines_room(stream: usize) -> usize
    ensures { result ≡ lines_room stream }
{
    if stream > LONGEST {
        return LINE_ROOM;
    }
    LINE_ROOM * (stream + 1)
}
