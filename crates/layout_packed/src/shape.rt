// Reads a whole packed file once, before anything is written.
ghost use Rattle.layout_packed.specs.Workings.Shown.{Shaped};

use super::number::number_at;
use super::{Fault, vertex};
use layouts::limits;
use layouts::shape::Shape;

// The shape of a packed file. Or its fault.
pub fn shape_of(bytes: &[u8]) -> Result<Shape, Fault>
    ensures { Shaped bytes.now result }
{
    let n = number_at(bytes, 0, limits::VERTICES).ok_or(Fault { offset: 0 })?;
    let m = number_at(bytes, n.next, limits::VERTICES).ok_or(Fault { offset: n.next })?;
    let second = vertex::skip(bytes, m.next, n.value)?;
    let end = vertex::skip(bytes, second, m.value)?;
    if end < bytes.len() {
        return Err(Fault { offset: end });
    }
    Ok(Shape {
        n: n.value,
        m: m.value,
        first: m.next,
        second,
    })
}
