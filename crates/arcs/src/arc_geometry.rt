// An arc for the rules of sticky ends: its sweep, and how far from its centre a point may lie.
ghost use Rattle.std.specs.Prelude.{◌≡◌};
ghost use Rattle.arcs.specs.ArcGeometry as geometry;
ghost use Rattle.arcs.specs.Workings.Ends;

use super::arc_sweep::ArcSweep;
use super::sweep_finding::SweepFinding;
use plane::base_math::dist_squared;
use plane::pline_seg::ArcRadiusCenter;
use plane::pline_vertex::PlineVertex;
use plane::vector2::Vector2;

// A sweep, and the bounds radius - epsilon and radius + epsilon. Both are squared, so that no root is needed. The lower one is
// also there as it is: if it is below zero, it bounds nothing.
#[derive(Clone, Copy)]
pub struct ArcGeometry {
    pub sweep: ArcSweep,
    pub radius_lower_bound: f64,
    pub radius_lower_bound_squared: f64,
    pub radius_upper_bound_squared: f64,
}

impl ArcGeometry {
    // The arc from `start` to `end` with this centre and radius.
    fn new(
        center: Vector2,
        start: Vector2,
        end: Vector2,
        is_clockwise: bool,
        radius: f64,
        epsilon: f64,
    ) -> ArcGeometry
        ensures { result ≡ geometry.new center start end is_clockwise radius epsilon }
    {
        let radius_lower_bound = radius - epsilon;
        let radius_upper_bound = radius + epsilon;
        let sweep = ArcSweep::new(center, start, end, is_clockwise, epsilon);
        ArcGeometry {
            sweep,
            radius_lower_bound,
            radius_lower_bound_squared: radius_lower_bound * radius_lower_bound,
            radius_upper_bound_squared: radius_upper_bound * radius_upper_bound,
        }
    }

    // The arc of the segment from v1 to v2, whose circle is known.
    pub fn of_segment(
        v1: PlineVertex,
        v2: PlineVertex,
        circle: ArcRadiusCenter,
        epsilon: f64,
    ) -> ArcGeometry
        ensures { result ≡ geometry.of_segment v1 v2 circle epsilon }
    {
        ArcGeometry::new(
            circle.center,
            v1.pos(),
            v2.pos(),
            v1.bulge_is_neg(),
            circle.radius,
            epsilon,
        )
    }

    // Whether the point is in the arc's sweep, at any distance from the centre, and by which rule.
    pub fn finding(self, point: Vector2) -> SweepFinding
        ensures { result ≡ geometry.finding self point }
    {
        self.sweep.finding(point)
    }

    // Whether the point lies on the arc: its distance from the centre is the radius, within epsilon, and it is in the sweep.
    pub fn point_lies_on_arc(self, point: Vector2) -> bool
        ensures { result ≡ geometry.point_lies_on_arc self point }
    {
        let sweep = self.sweep;
        let distance_squared = dist_squared(point, sweep.center);
        if (distance_squared < self.radius_upper_bound_squared)
            & ((self.radius_lower_bound < 0.0)
                | (distance_squared > self.radius_lower_bound_squared))
        {
            return self.finding(point).is_yes();
        }
        false
    }

    // Whether the point's distance from the centre is not the radius, within epsilon: then it lies on no part of the arc.
    pub fn point_off_circle(self, point: Vector2) -> bool
        ensures { result ≡ Ends.point_off_circle self point }
    {
        let sweep = self.sweep;
        let distance_squared = dist_squared(point, sweep.center);
        !((distance_squared < self.radius_upper_bound_squared)
            & ((self.radius_lower_bound < 0.0)
                | (distance_squared > self.radius_lower_bound_squared)))
    }
}
