// The vertices of a path, moved from one form to the other. Each function answers the place after what it put.
ghost use Rattle.std.specs.Prelude.{◌+◌, ◌*◌, ◌≤◌, length, drop};
ghost use Rattle.layout_text.specs.Form.{vertices_text};
ghost use Rattle.layout_text.specs.Sizes as text_sizes;
ghost use Rattle.layout_text.specs.Workings.Reader.{vertices_of};
ghost use Rattle.layout_packed.specs.Limits as packed_sizes;
ghost use Rattle.layout_packed.specs.Workings.Reader.{vertices_from};
ghost use Rattle.layout_moves.specs.Workings.Carried.{Carried, from_text, from_packed, vertices_bytes};

use layout_packed::{put as packed_put, vertex as packed_vertex};
use layout_text::{put as text_put, vertex as text_vertex};

// Puts the packed form of the n vertices whose text lines start at `start`, from `to` on, if the text has all of them.
pub fn pack_vertices(text: &[u8], start: usize, n: u64, out: &mut [u8], to: usize) -> usize
    requires { to + n * packed_sizes.vertex_bytes ≤ length out.old }
    ensures { Carried vertices_bytes (n * packed_sizes.vertex_bytes) (from_text (vertices_of n (drop start text.now)))
        out.old to out.new result }
{
    let mut at = start;
    let mut next = to;
    for _ in 0..n {
        let Some(v) = text_vertex::vertex(text, at) else {
            return next;
        };
        next = packed_put::put_vertex(out, next, v.corner);
        at = v.next;
    }
    next
}

// Puts the text lines of the n vertices that start at `start`, from `to` on, if the file has all of them.
pub fn unpack_vertices(bytes: &[u8], start: usize, n: u64, out: &mut [u8], to: usize) -> usize
    requires { to + n * text_sizes.vertex_line ≤ length out.old }
    ensures { Carried vertices_text (n * text_sizes.vertex_line) (from_packed (vertices_from n start (drop start bytes.now)))
        out.old to out.new result }
{
    let mut at = start;
    let mut next = to;
    for _ in 0..n {
        let Ok(v) = packed_vertex::vertex(bytes, at) else {
            return next;
        };
        next = text_put::put_vertex(out, next, v.corner);
        at = v.next;
    }
    next
}
