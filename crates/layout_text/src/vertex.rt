// The text lines of a path's vertices.
ghost use Rattle.std.specs.Prelude.{◌≡◌, drop};
ghost use Rattle.layout_text.specs.Workings.Reader.{vertex_of, vertices_of, passed};
ghost use Rattle.layout_text.specs.Workings.Shown.{shown_vertex, shown_place};

use super::{bytes, number};
use layouts::limits;
use layouts::vertex::{Corner, Reading, Signed};

// The vertex whose text line starts at `start`. None if there is no such line. With `?` in the place of `let .. else` the loop over the
// digits readies at each byte what goes with a None, and packing a text takes a third longer.
pub fn vertex(text: &[u8], start: usize) -> Option<Reading>
    ensures { shown_vertex text.now result ≡ vertex_of (drop start text.now) }
{
    let Some(x) = number::whole(text, start, limits::COORDINATE, bytes::SPACE) else {
        return None;
    };
    let Some(y) = number::whole(text, x.next, limits::COORDINATE, bytes::SPACE) else {
        return None;
    };
    let Some(b) = number::whole(text, y.next, limits::BULGE, bytes::NEWLINE) else {
        return None;
    };
    let corner = Corner {
        x: Signed {
            minuses: x.minuses,
            magnitude: x.magnitude,
        },
        y: Signed {
            minuses: y.minuses,
            magnitude: y.magnitude,
        },
        bulge: Signed {
            minuses: b.minuses,
            magnitude: b.magnitude,
        },
    };
    Some(Reading {
        corner,
        next: b.next,
    })
}

// The place after n vertices. None if the text breaks its form before it.
pub(crate) fn skip(text: &[u8], start: usize, n: u64) -> Option<usize>
    ensures { shown_place text.now result ≡ passed (vertices_of n (drop start text.now)) }
{
    let mut at = start;
    for _ in 0..n {
        at = vertex(text, at)?.next;
    }
    Some(at)
}
