// The answer of a pair: pline_seg_intersect.rs, lines 127-165.
use plane::vector2::Vector2;

// How two segments meet. Two points stand in the order of the second segment, except for two arcs on two circles.
#[derive(Clone, Copy)]
pub enum PlineSegIntr {
    // Apart.
    NoIntersect,
    // They meet in one point and don't cross there.
    TangentIntersect { point: Vector2 },
    // They meet in one point.
    OneIntersect { point: Vector2 },
    // They meet in two points.
    TwoIntersects { point1: Vector2, point2: Vector2 },
    // Both are lines, and they overlap from the first point to the second.
    OverlappingLines { point1: Vector2, point2: Vector2 },
    // Both are arcs, and they overlap from the first point to the second.
    OverlappingArcs { point1: Vector2, point2: Vector2 },
}
