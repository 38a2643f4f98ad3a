// Where the parts of a segment start.
ghost use Rattle.std.specs.Prelude.{◌≡◌};
ghost use Rattle.large_pair.specs.Workings.Starts as workings;

use cuts::cut::{Halves, halve, is_large};
use plane::pline_vertex::PlineVertex;

// The starts of both halves of a segment that is cut. Of one that is not cut, its own ends. So its first part, or the segment
// itself, always runs from the first to the second; and a second half runs from the second to v2.
pub fn starts(v1: PlineVertex, v2: PlineVertex) -> Halves
    ensures { result ≡ workings.starts v1 v2 }
{
    if is_large(v1.bulge) {
        return halve(v1, v2);
    }
    Halves {
        first: v1,
        second: v2,
    }
}
