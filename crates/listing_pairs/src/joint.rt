// Whether two segments of one path meet only at vertices that they share.
ghost use Rattle.std.specs.Prelude.{◌≡◌, ◌&&◌, ◌≤◌, ◌<◌};
ghost use Rattle.paths.specs.Path;
ghost use Rattle.listing_pairs.specs.Neighbours;
ghost use Rattle.listing_pairs.specs.Workings.Joint;

use super::order::Job;
use arcs::pline_seg_intr::PlineSegIntr;
use paths::path;
use plane::vector2::Vector2;

// Whether p is near vertex k of the path, if the pair shares that vertex.
fn near_shared(path: &[f64], shared: bool, k: usize, epsilon: f64, p: Vector2) -> bool
    requires { k < Path.vertex_count path.now }
    ensures { result ≡ Joint.near_shared path.now shared k epsilon p }
{
    if shared {
        return p.fuzzy_eq_eps(path::vertex(path, k).pos(), epsilon);
    }
    false
}

// Whether p is near a vertex that segments i and j share: vertex j if `next`, vertex 0 if `closing`.
fn near_some(path: &[f64], next: bool, closing: bool, j: usize, epsilon: f64, p: Vector2) -> bool
    requires { j < Path.vertex_count path.now }
    ensures { result ≡ Joint.near_either path.now next closing j epsilon p }
{
    let at_next = near_shared(path, next, j, epsilon, p);
    let at_start = near_shared(path, closing, 0, epsilon, p);
    at_next | at_start
}

// Whether the listing is of one path and its segments i and j, which meet like this, meet only at vertices that they share. A
// pair that is apart does not, and an overlap never does.
pub(crate) fn at_joint(path: &[f64], job: Job, i: usize, j: usize, met: PlineSegIntr) -> bool
    requires { (i ≤ Path.most_segments) × (j < Path.vertex_count path.now) }
    ensures { result ≡ (job.own && Neighbours.at_joint path.now job.closed job.m job.epsilon i j met) }
{
    if !job.own {
        return false;
    }
    let next = j == i + 1;
    let closing = job.closed & (i == 0) & (j + 1 == job.m);
    if !(next | closing) {
        return false;
    }
    let eps = job.epsilon;
    match met {
        PlineSegIntr::NoIntersect => false,
        PlineSegIntr::TangentIntersect { point } => near_some(path, next, closing, j, eps, point),
        PlineSegIntr::OneIntersect { point } => near_some(path, next, closing, j, eps, point),
        PlineSegIntr::TwoIntersects { point1, point2 } => {
            let first = near_some(path, next, closing, j, eps, point1);
            let second = near_some(path, next, closing, j, eps, point2);
            first & second
        }
        PlineSegIntr::OverlappingLines { point1, point2 } => false,
        PlineSegIntr::OverlappingArcs { point1, point2 } => false,
    }
}
