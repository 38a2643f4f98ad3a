// How a line and a circle meet. A parameter t gives the point p0 + t * (p1 - p0); below 0 or above 1 it lies beyond an end.
#[derive(Clone, Copy)]
pub enum LineCircleIntr {
    // Apart.
    NoIntersect,
    // One point, or two that are near each other.
    TangentIntersect { t0: f64 },
    // Two points, the smaller parameter first.
    TwoIntersects { t0: f64, t1: f64 },
}
