// Puts packed numbers into a lent slice from a place on. Each function answers the place after what it put.
ghost use Rattle.std.specs.Prelude.{◌≡◌, ◌+◌, ◌≤◌, length};
ghost use Rattle.layouts.specs.Limits as limit;
ghost use Rattle.layouts.specs.Layout.{signed, whole_vertex, VertexWithin};
ghost use Rattle.put_text.specs.Workings.Put.{Put, PutIn};
ghost use Rattle.layout_packed.specs.Limits as written;
ghost use Rattle.layout_packed.specs.Groups.{groups_of, zigzag};
ghost use Rattle.layout_packed.specs.Packed.{joined, vertex_numbers};

use layouts::vertex::{Corner, Signed};
use put_text::put_byte;

// A number's groups.
fn put_number(out: &mut [u8], at: usize, n: u64) -> usize
    requires { at + length (groups_of n) ≤ length out.old }
    ensures { Put (groups_of n) out.old at out.new result }
{
    let mut i = at;
    let mut left = n;
    while left >= 128 {
        i = put_byte(out, i, 128 + (left % 128) as u8);
        left = left / 128;
    }
    put_byte(out, i, left as u8)
}

// A path's count of vertices.
pub fn put_count(out: &mut [u8], at: usize, n: u64) -> usize
    requires n_le_vertices { n ≤ limit.vertices }
    requires count_bytes_in_bounds { at + written.count_bytes ≤ length out.old }
    ensures { PutIn written.count_bytes (groups_of n) out.old at out.new result }
{
    put_number(out, at, n)
}

// The number that is written for a coordinate or bulge.
fn zigzagged(n: Signed) -> u64
    requires { n.magnitude ≤ limit.coordinate }
    ensures { result ≡ zigzag (signed n) }
{
    if n.magnitude == 0 {
        return 0;
    }
    if n.minuses == 1 {
        return 2 * n.magnitude - 1;
    }
    2 * n.magnitude
}

// A coordinate or bulge.
fn put_signed(out: &mut [u8], at: usize, n: Signed) -> usize
    requires n_le_coordinate { n.magnitude ≤ limit.coordinate }
    requires n_in_bounds { at + length (groups_of (zigzag (signed n))) ≤ length out.old }
    ensures { Put (groups_of (zigzag (signed n))) out.old at out.new result }
{
    put_number(out, at, zigzagged(n))
}

// A vertex.
pub fn put_vertex(out: &mut [u8], at: usize, v: Corner) -> usize
    requires vertex_within { VertexWithin (whole_vertex v) }
    requires vertex_bytes_in_bounds { at + written.vertex_bytes ≤ length out.old }
    ensures { PutIn written.vertex_bytes (joined (vertex_numbers (whole_vertex v))) out.old at out.new result }
{
    let after_x = put_signed(out, at, v.x);
    let after_y = put_signed(out, after_x, v.y);
    put_signed(out, after_y, v.bulge)
}
