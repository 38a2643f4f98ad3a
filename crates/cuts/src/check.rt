// The check of a path in the mode of large arcs: its vertices in order, then its segments in order. It is as that of `paths`, but
// a bulge may be up to 16 in magnitude, and a segment that is cut is judged by its cut point and its halves.
ghost use Rattle.std.specs.Prelude.{◌≡◌};
ghost use Rattle.checks.specs.First.{first};
ghost use Rattle.cuts.specs.LargeChecks;
ghost use Rattle.cuts.specs.Workings.Inside;

use super::cut::{halve, is_large};
use checks::fault::{Checked, Item, at};
use checks::number::{inside, no_trace};
use checks::{arc, chain, each, limit};
use paths::{path, segments};
use plane::pline_vertex::PlineVertex;

// Whether the numbers of a path's vertex are all fine, by comparisons alone. Most often the trace is 0, and then no sum is
// needed.
fn vertex_inside(x: f64, y: f64, bulge: f64, trace: f64) -> bool
    ensures { result ≡ Inside.vertex_inside x y bulge trace }
{
    let inside = (inside(limit::COORDINATE, x) & inside(limit::COORDINATE, y))
        & inside(limit::LARGE_BULGE, bulge);
    if trace == 0.0 {
        return inside;
    }
    inside & !no_trace(trace)
}

// A quick test whether the numbers of every vertex are inside their limits. A no says nothing.
fn vertices_inside(path: &[f64]) -> bool
    ensures { Inside.IfYes path.now result }
{
    for i in 0..path::vertex_count(path) {
        let v = path::vertex(path, i);
        let trace = path::trace(path, i);
        if !vertex_inside(v.x, v.y, v.bulge, trace) {
            return false;
        }
    }
    true
}

// A vertex: x, y, then its bulge.
pub fn vertex(x: f64, y: f64, bulge: f64, owner: u64, index: u64) -> Checked
    ensures { result ≡ first (LargeChecks.vertex_checks x y bulge owner index) }
{
    chain::point(x, y, owner, index)?;
    each::large_bulge(bulge, at(owner, index, Item::Bulge))
}

// A vertex of a path: x, y, its bulge, then its trace.
fn traced(x: f64, y: f64, bulge: f64, trace: f64, owner: u64, index: u64) -> Checked
    ensures { result ≡ first (LargeChecks.traced_checks x y bulge trace owner index) }
{
    vertex(x, y, bulge, owner, index)?;
    each::trace(trace, at(owner, index, Item::Trace))
}

// A segment from v1 to v2. If it is cut: the cut point's x and y, then the chords of both halves. Else its chord, if it is an
// arc. The place is always that of the segment itself.
#[tactic(auto, unfolding(checks::specs::Fault::later, crate::specs::LargeChecks::segment_checks, crate::specs::Cut::halve))]
pub fn segment(v1: PlineVertex, v2: PlineVertex, owner: u64, index: u64) -> Checked
    ensures { result ≡ first (LargeChecks.segment_checks v1 v2 owner index) }
{
    if is_large(v1.bulge) {
        let h = halve(v1, v2);
        let c = h.second;
        each::coordinate(c.x, at(owner, index, Item::CutX))?;
        each::coordinate(c.y, at(owner, index, Item::CutY))?;
        arc::arc_chord(h.first, c, owner, index)?;
        return arc::arc_chord(c, v2, owner, index);
    }
    arc::arc_chord(v1, v2, owner, index)
}

// The first fault of every vertex of the path in order, vertex by vertex.
fn find_in_vertices(path: &[f64], owner: u64) -> Checked
    ensures { result ≡ first (LargeChecks.all_vertices path.now owner) }
{
    for i in 0..path::vertex_count(path) {
        let v = path::vertex(path, i);
        let trace = path::trace(path, i);
        traced(v.x, v.y, v.bulge, trace, owner, i as u64)?;
    }
    Ok(())
}

// The first fault of every vertex of the path in order. Most often there is no fault, and the quick test shows it without building
// places.
fn check_vertices(path: &[f64], owner: u64) -> Checked
    ensures { result ≡ first (LargeChecks.all_vertices path.now owner) }
{
    if vertices_inside(path) {
        return Ok(());
    }
    find_in_vertices(path, owner)
}

// The first fault of every segment of the path in order.
fn check_segments(path: &[f64], closed: bool, owner: u64) -> Checked
    ensures { result ≡ first (LargeChecks.all_segments path.now closed owner) }
{
    for i in 0..segments::segment_count(path, closed) {
        let s = segments::segment_from(path, i);
        segment(s.v1, s.v2, owner, i as u64)?;
    }
    Ok(())
}

// The first fault of the path's vertices, then of its segments. It answers for every slice: if `shape` refuses the slice, its whole
// vertices are checked and no segments.
pub fn check_large_path(path: &[f64], closed: bool, owner: u64) -> Checked
    ensures { result ≡ first (LargeChecks.large_path_checks path.now closed owner) }
{
    check_vertices(path, owner)?;
    check_segments(path, closed, owner)
}
