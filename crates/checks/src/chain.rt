// The checks of a point, a vertex and a circle, number by number. Each answers its first fault.
ghost use Rattle.std.specs.Prelude.{◌≡◌};
ghost use Rattle.checks.specs.First.{first};
ghost use Rattle.checks.specs.Lists;
ghost use Rattle.checks.specs.Workings.Inside;

use super::fault::{Checked, Item, at};
use super::number::{between, inside, no_trace};
use super::{each, limit};

// Whether a point's numbers are both fine, by comparisons alone.
fn point_inside(x: f64, y: f64) -> bool
    ensures { result ≡ Inside.point_inside x y }
{
    inside(limit::COORDINATE, x) & inside(limit::COORDINATE, y)
}

// A point, number by number: x, then y.
fn point_by_numbers(x: f64, y: f64, owner: u64, index: u64) -> Checked
    ensures { result ≡ first (Lists.point_checks x y owner index) }
{
    each::coordinate(x, at(owner, index, Item::X))?;
    each::coordinate(y, at(owner, index, Item::Y))
}

// A point: x, then y. Most often both are fine.
pub fn point(x: f64, y: f64, owner: u64, index: u64) -> Checked
    ensures { result ≡ first (Lists.point_checks x y owner index) }
{
    if point_inside(x, y) {
        return Ok(());
    }
    point_by_numbers(x, y, owner, index)
}

// Whether a vertex's numbers are all fine, by comparisons alone.
pub fn vertex_inside(x: f64, y: f64, bulge: f64) -> bool
    ensures { result ≡ Inside.vertex_inside x y bulge }
{
    point_inside(x, y) & inside(limit::BULGE, bulge)
}

// A vertex, number by number: x, y, then its bulge.
fn vertex_by_numbers(x: f64, y: f64, bulge: f64, owner: u64, index: u64) -> Checked
    ensures { result ≡ first (Lists.vertex_checks x y bulge owner index) }
{
    point_by_numbers(x, y, owner, index)?;
    each::bulge(bulge, at(owner, index, Item::Bulge))
}

// A vertex: x, y, then its bulge. Most often all three are fine.
pub fn vertex(x: f64, y: f64, bulge: f64, owner: u64, index: u64) -> Checked
    ensures { result ≡ first (Lists.vertex_checks x y bulge owner index) }
{
    if vertex_inside(x, y, bulge) {
        return Ok(());
    }
    vertex_by_numbers(x, y, bulge, owner, index)
}

// Whether the numbers of a path's vertex are all fine, without building a place. Most often the trace is 0, and then no sum is
// needed.
pub fn traced_inside(x: f64, y: f64, bulge: f64, trace: f64) -> bool
    ensures { result ≡ Inside.traced_inside x y bulge trace }
{
    let inside = vertex_inside(x, y, bulge);
    if trace == 0.0 {
        return inside;
    }
    inside & !no_trace(trace)
}

// A vertex of a path: x, y, its bulge, then its trace.
pub fn traced(x: f64, y: f64, bulge: f64, trace: f64, owner: u64, index: u64) -> Checked
    ensures { result ≡ first (Lists.traced_checks x y bulge trace owner index) }
{
    vertex(x, y, bulge, owner, index)?;
    each::trace(trace, at(owner, index, Item::Trace))
}

// Whether a circle's numbers are all fine, by comparisons alone.
fn circle_inside(radius: f64, cx: f64, cy: f64) -> bool
    ensures { result ≡ Inside.circle_inside radius cx cy }
{
    between(limit::RADIUS_LEAST, limit::RADIUS_MOST, radius)
        & (inside(limit::CENTER, cx) & inside(limit::CENTER, cy))
}

// A kernel's circle, number by number: its radius, then its centre, x before y.
#[tactic(auto, unfolding(crate::specs::Fault::later))]
fn circle_by_numbers(radius: f64, cx: f64, cy: f64, owner: u64) -> Checked
    ensures { result ≡ first (Lists.circle_checks radius cx cy owner) }
{
    each::radius(radius, at(owner, 0, Item::Radius))?;
    each::center(cx, at(owner, 0, Item::CenterX))?;
    each::center(cy, at(owner, 0, Item::CenterY))
}

// A kernel's circle: its radius, then its centre, x before y. Most often all three are fine.
pub fn circle(radius: f64, cx: f64, cy: f64, owner: u64) -> Checked
    ensures { result ≡ first (Lists.circle_checks radius cx cy owner) }
{
    if circle_inside(radius, cx, cy) {
        return Ok(());
    }
    circle_by_numbers(radius, cx, cy, owner)
}
