// The sweep of an arc: the wedge that the arc spans, seen from its centre.
ghost use Rattle.std.specs.Prelude.{◌≡◌};
ghost use Rattle.arcs.specs.ArcSweep as sweep;

use super::sweep_finding::SweepFinding;
use plane::vector2::Vector2;

// A wedge around a centre, from one direction to another, clockwise if `is_clockwise` says so. The limits say how far beside its
// two edges a point may lie. They are squared, so that no root is needed.
#[derive(Clone, Copy)]
pub struct ArcSweep {
    pub center: Vector2,
    pub start_vector: Vector2,
    pub end_vector: Vector2,
    pub is_clockwise: bool,
    pub epsilon_squared: f64,
    pub start_fuzzy_limit: f64,
    pub end_fuzzy_limit: f64,
}

impl ArcSweep {
    // The sweep of the arc from `start` to `end` around `center`, with edges as wide as epsilon.
    pub fn new(
        center: Vector2,
        start: Vector2,
        end: Vector2,
        is_clockwise: bool,
        epsilon: f64,
    ) -> ArcSweep
        ensures { result ≡ sweep.new center start end is_clockwise epsilon }
    {
        let start_vector = start.sub(center);
        let end_vector = end.sub(center);
        let epsilon_squared = epsilon * epsilon;
        ArcSweep {
            center,
            start_vector,
            end_vector,
            is_clockwise,
            epsilon_squared,
            start_fuzzy_limit: epsilon_squared * start_vector.length_squared(),
            end_fuzzy_limit: epsilon_squared * end_vector.length_squared(),
        }
    }

    // Whether the point is in the sweep, and by which rule: the first one that says yes.
    pub fn finding(self, point: Vector2) -> SweepFinding
        ensures { result ≡ sweep.finding self point }
    {
        let point_vector = point.sub(self.center);
        if point_vector.length_squared() < self.epsilon_squared {
            return SweepFinding::NearCenter;
        }
        let start_cross = self.start_vector.perp_dot(point_vector);
        let end_cross = self.end_vector.perp_dot(point_vector);
        if exactly_within_sweep(self.is_clockwise, start_cross, end_cross) {
            return SweepFinding::Inside;
        }
        if beside(
            self.start_vector,
            point_vector,
            start_cross,
            self.start_fuzzy_limit,
        ) {
            return SweepFinding::NearStart;
        }
        if beside(
            self.end_vector,
            point_vector,
            end_cross,
            self.end_fuzzy_limit,
        ) {
            return SweepFinding::NearEnd;
        }
        SweepFinding::Outside
    }
}

// Whether a point lies between the two edges: the signs of the two cross products show its side of each.
fn exactly_within_sweep(is_clockwise: bool, start_cross: f64, end_cross: f64) -> bool
    ensures { result ≡ sweep.exactly_within_sweep is_clockwise start_cross end_cross }
{
    if is_clockwise {
        return (start_cross <= 0.0) & (end_cross >= 0.0);
    }
    (start_cross >= 0.0) & (end_cross <= 0.0)
}

// Whether a point lies on the same side of the centre as an edge, and so near the edge's straight line that the square of the
// cross product is below the limit.
fn beside(edge: Vector2, point_vector: Vector2, cross: f64, fuzzy_limit: f64) -> bool
    ensures { result ≡ sweep.beside edge point_vector cross fuzzy_limit }
{
    (edge.dot(point_vector) >= 0.0) & (cross * cross < fuzzy_limit)
}
