// The check of a path's numbers: its vertices in order, then its arcs in order. A fault has as its place the path, the vertex or
// segment, and which of its numbers.
ghost use Rattle.std.specs.Prelude.{◌≡◌};
ghost use Rattle.checks.specs.First.{first};
ghost use Rattle.paths.specs.Check;
ghost use Rattle.paths.specs.Workings.Inside;

use super::{path, segments};
use checks::fault::Checked;
use checks::{arc, chain};

// A quick test whether the numbers of every vertex are inside their limits. A no says nothing.
fn vertices_inside(path: &[f64]) -> bool
    ensures { Inside.IfYes path.now result }
{
    for i in 0..path::vertex_count(path) {
        let v = path::vertex(path, i);
        let trace = path::trace(path, i);
        if !chain::traced_inside(v.x, v.y, v.bulge, trace) {
            return false;
        }
    }
    true
}

// The first fault of every vertex of the path in order, vertex by vertex.
fn find_in_vertices(path: &[f64], owner: u64) -> Checked
    ensures { result ≡ first (Check.vertex_checks path.now owner) }
{
    for i in 0..path::vertex_count(path) {
        let v = path::vertex(path, i);
        let trace = path::trace(path, i);
        chain::traced(v.x, v.y, v.bulge, trace, owner, i as u64)?;
    }
    Ok(())
}

// The first fault of every vertex of the path in order, each x, y, its bulge, then its trace. Most often there is no fault, and
// the quick test shows it without building places.
pub fn check_vertices(path: &[f64], owner: u64) -> Checked
    ensures { result ≡ first (Check.vertex_checks path.now owner) }
{
    if vertices_inside(path) {
        return Ok(());
    }
    find_in_vertices(path, owner)
}

// The first fault of the chord of every arc of the path in order.
pub fn check_arcs(path: &[f64], closed: bool, owner: u64) -> Checked
    ensures { result ≡ first (Check.arc_checks path.now closed owner) }
{
    for i in 0..segments::segment_count(path, closed) {
        let s = segments::segment_from(path, i);
        arc::arc_chord(s.v1, s.v2, owner, i as u64)?;
    }
    Ok(())
}

// The first fault of the path's vertices, then of its arcs. It answers for every slice: if `shape` refuses the slice, its whole
// vertices are checked and no arcs.
pub fn check_path(path: &[f64], closed: bool, owner: u64) -> Checked
    ensures { result ≡ first (Check.path_checks path.now closed owner) }
{
    check_vertices(path, owner)?;
    check_arcs(path, closed, owner)
}
