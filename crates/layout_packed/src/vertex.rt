// The vertices of a path in a packed file.
ghost use Rattle.std.specs.Prelude.{◌≡◌, ◌≤◌, ◌*◌, drop, length};
ghost use Rattle.layouts.specs.Limits as limit;
ghost use Rattle.layouts.specs.Layout.{signed};
ghost use Rattle.layout_packed.specs.Workings.Reader.{vertex_from, vertices_from, passed, negative, size, meant};
ghost use Rattle.layout_packed.specs.Workings.Shown.{shown_vertex, shown_place, Filled};

use super::number::number_at;
use super::{Fault, limits};
use layouts::limits::NUMBERS;
use layouts::value;
use layouts::vertex::{Corner, Reading, Signed};

// The vertex that starts at `start`. Or the fault is the number of it that is not there.
pub fn vertex(bytes: &[u8], start: usize) -> Result<Reading, Fault>
    ensures { shown_vertex bytes.now result ≡ vertex_from start (drop start bytes.now) }
{
    let x = number_at(bytes, start, limits::COORDINATE).ok_or(Fault { offset: start })?;
    let y = number_at(bytes, x.next, limits::COORDINATE).ok_or(Fault { offset: x.next })?;
    let b = number_at(bytes, y.next, limits::BULGE).ok_or(Fault { offset: y.next })?;
    let corner = Corner {
        x: signed(x.value),
        y: signed(y.value),
        bulge: signed(b.value),
    };
    Ok(Reading {
        corner,
        next: b.next,
    })
}

// The coordinate or bulge for which n is written.
fn signed(n: u64) -> Signed
    ensures { signed result ≡ meant n }
{
    Signed {
        minuses: u64::from(is_negative(n)),
        magnitude: size(n),
    }
}

// Whether a negative number is meant.
fn is_negative(n: u64) -> bool
    ensures { result ≡ negative n }
{
    n % 2 == 1
}

// The magnitude of the number that is meant.
fn size(n: u64) -> u64
    ensures { result ≡ size n }
{
    n / 2 + n % 2
}

// The place after n vertices. Or the fault before it.
pub(crate) fn skip(bytes: &[u8], start: usize, n: u64) -> Result<usize, Fault>
    ensures { shown_place bytes.now result ≡ passed (vertices_from n start (drop start bytes.now)) }
{
    let mut at = start;
    for _ in 0..n {
        at = vertex(bytes, at)?.next;
    }
    Ok(at)
}

// Writes n vertices, four floats each, to the front of `out`, if the file has all of them.
pub(crate) fn fill(bytes: &[u8], start: usize, n: u64, out: &mut [f64])
    requires { n * limit.numbers_a_vertex ≤ length out.old }
    ensures { Filled (vertices_from n start (drop start bytes.now)) out.old out.new }
{
    let mut at = start;
    for i in 0..n as usize {
        let Ok(v) = vertex(bytes, at) else {
            return;
        };
        let to = i * NUMBERS;
        out[to] = value::coordinate(v.corner.x.minuses == 1, v.corner.x.magnitude);
        out[to + 1] = value::coordinate(v.corner.y.minuses == 1, v.corner.y.magnitude);
        out[to + 2] = value::bulge(v.corner.bulge.minuses == 1, v.corner.bulge.magnitude);
        out[to + 3] = value::TRACE;
        at = v.next;
    }
}
