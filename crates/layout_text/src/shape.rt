// Reads a whole text once before anything is written.
ghost use Rattle.layout_text.specs.Workings.Shown.{Shaped};

use super::{BYTES, bytes, number, vertex};
use layouts::limits;
use layouts::shape::Shape;

// The shape of a text, before its vertices are written. None if the text breaks its form.
pub fn shape_of(text: &[u8]) -> Option<Shape>
    ensures { Shaped text.now result }
{
    if text.len() > BYTES {
        return None;
    }
    let n = number::count(text, 0, limits::VERTICES, bytes::SPACE)?;
    let m = number::count(text, n.next, limits::VERTICES, bytes::NEWLINE)?;
    let second = vertex::skip(text, m.next, n.magnitude)?;
    let end = vertex::skip(text, second, m.magnitude)?;
    if end < text.len() {
        return None;
    }
    Some(Shape {
        n: n.magnitude,
        m: m.magnitude,
        first: m.next,
        second,
    })
}
