// Puts the text of a layout into a lent slice, one text line at a time. Each function answers the place after what it put.
ghost use Rattle.std.specs.Prelude.{◌+◌, ◌≤◌, length};
ghost use Rattle.layouts.specs.Limits as limit;
ghost use Rattle.layouts.specs.Layout.{VertexWithin, signed, whole_vertex};
ghost use Rattle.put_text.specs.Workings.Put.{Put, PutIn};
ghost use Rattle.layout_text.specs.Form.{whole_text, vertex_text, counts_text};
ghost use Rattle.layout_text.specs.Sizes as sizes;

use layouts::vertex::{Corner, Signed};
use put_text::{put_byte, put_decimal};

// A whole number. 0 has no minus.
fn put_signed(out: &mut [u8], at: usize, n: Signed) -> usize
    requires { at + length (whole_text (signed n)) ≤ length out.old }
    ensures { Put (whole_text (signed n)) out.old at out.new result }
{
    if n.magnitude == 0 {
        return put_decimal(out, at, n.magnitude);
    }
    if n.minuses == 1 {
        let next = put_byte(out, at, b'-');
        return put_decimal(out, next, n.magnitude);
    }
    put_decimal(out, at, n.magnitude)
}

// The text line of a vertex.
pub fn put_vertex(out: &mut [u8], at: usize, v: Corner) -> usize
    requires vertex_within { VertexWithin (whole_vertex v) }
    requires vertex_line_in_bounds { at + sizes.vertex_line ≤ length out.old }
    ensures { PutIn sizes.vertex_line (vertex_text (whole_vertex v)) out.old at out.new result }
{
    let after_x = put_signed(out, at, v.x);
    let y_at = put_byte(out, after_x, b' ');
    let after_y = put_signed(out, y_at, v.y);
    let b_at = put_byte(out, after_y, b' ');
    let after_b = put_signed(out, b_at, v.bulge);
    put_byte(out, after_b, b'\n')
}

// The text line with the counts, at the front.
pub fn put_counts(out: &mut [u8], n: u64, m: u64) -> usize
    requires n_le_vertices { n ≤ limit.vertices }
    requires m_le_vertices { m ≤ limit.vertices }
    requires counts_line_in_bounds { sizes.counts_line ≤ length out.old }
    ensures { PutIn sizes.counts_line (counts_text n m) out.old 0 out.new result }
{
    let after_n = put_decimal(out, 0, n);
    let m_at = put_byte(out, after_n, b' ');
    let after_m = put_decimal(out, m_at, m);
    put_byte(out, after_m, b'\n')
}
