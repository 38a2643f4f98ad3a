use plane::vector2::Vector2;

// How two circles meet.
#[derive(Clone, Copy)]
pub enum CircleCircleIntr {
    // Outside each other, or one inside the other.
    NoIntersect,
    // One point, or two that are near each other.
    TangentIntersect { point: Vector2 },
    // Two points.
    TwoIntersects { point1: Vector2, point2: Vector2 },
    // The same circle.
    Overlapping,
}
