// The vertices of a path as text: the first pass finds faults and counts the bytes, the second one writes them.
ghost use Rattle.std.specs.Prelude.{◌≡◌, ◌+◌, ◌<◌, ◌≤◌, length};
ghost use Rattle.paths.specs.Path.{vertex_count, most_vertices};
ghost use Rattle.dxf_write.specs.Written.{vertices_bytes};
ghost use Rattle.dxf_write.specs.Export as export;
ghost use Rattle.dxf_write.specs.Workings.Told as told;

use super::millionths::{Vertex, millionths};
use super::put::put_vertex;
use super::sizes::vertex_size;
use checks::fault::{Fault, Item, at as place_at};
use dxf_form::refusal::NO_TEXT;
use paths::path;

// The refusal of a number of vertex i.
fn no_text(i: usize, item: Item) -> Fault
    ensures { result ≡ told.no_text i item }
{
    Fault {
        number: NO_TEXT,
        place: place_at(0, i as u64, item),
    }
}

// Vertex i. Or the refusal of its first number that has no text.
fn vertex_numbers(path: &[f64], i: usize) -> Result<Vertex, Fault>
    requires { i < vertex_count path.now }
    ensures { told.VertexTold path.now i result }
{
    let v = path::vertex(path, i);
    let Some(x) = millionths(v.x) else {
        return Err(no_text(i, Item::X));
    };
    let Some(y) = millionths(v.y) else {
        return Err(no_text(i, Item::Y));
    };
    let Some(bulge) = millionths(v.bulge) else {
        return Err(no_text(i, Item::Bulge));
    };
    Ok(Vertex {
        x: x,
        y: y,
        bulge: bulge,
    })
}

// The first pass: how many bytes the vertices have. Or the first refusal.
pub fn measure(path: &[f64]) -> Result<usize, Fault>
    requires { vertex_count path.now ≤ most_vertices }
    ensures { told.MeasureTold path.now result }
{
    let mut size = 0;
    for i in 0..path::vertex_count(path) {
        let v = vertex_numbers(path, i)?;
        size += vertex_size(v);
    }
    Ok(size)
}

// The second pass: puts the text of the vertices from `start` on.
pub fn put_vertices(path: &[f64], out: &mut [u8], start: usize) -> usize
    requires { start + length (vertices_bytes (export.corners_of path.now)) ≤ length out.old }
    ensures { told.Written path.now out.old start out.new result }
{
    let mut next = start;
    for i in 0..path::vertex_count(path) {
        let Ok(v) = vertex_numbers(path, i) else {
            return next;
        };
        next = put_vertex(out, next, v);
    }
    next
}
