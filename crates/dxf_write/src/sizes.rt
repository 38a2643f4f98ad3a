// How many bytes the parts of a text have.
ghost use Rattle.std.specs.Prelude.{◌≡◌, ◌≤◌, length};
ghost use Rattle.layouts.specs.Layout.{whole};
ghost use Rattle.put_text.specs.Decimal.{decimal};
ghost use Rattle.dxf_write.specs.Written;
ghost use Rattle.dxf_write.specs.Workings.Told as told;

use super::millionths::{Number, Vertex};
use dxf_form::value::MILLION;

// The digits of a whole number.
pub fn decimal_size(n: u64) -> usize
    ensures { result ≡ length (decimal n) }
{
    let mut rest = n;
    let mut size = 1;
    while rest >= 10 {
        rest = rest / 10;
        size += 1;
    }
    size
}

// A number: a minus unless it is zero, the whole part, the point and six digits.
pub fn number_size(n: Number) -> usize
    ensures { result ≡ length (Written.number_bytes (whole n.negative n.millionths)) }
{
    let size = decimal_size(n.millionths / MILLION) + 7;
    if n.millionths == 0 {
        return size;
    }
    if n.negative {
        return size + 1;
    }
    size
}

// The three groups of a vertex. Each has a code of two digits and two newlines.
pub fn vertex_size(v: Vertex) -> usize
    ensures { (result ≡ length (Written.vertex_bytes (told.corner_by v))) × (result ≤ told.vertex_most) }
{
    number_size(v.x) + number_size(v.y) + number_size(v.bulge) + 12
}
