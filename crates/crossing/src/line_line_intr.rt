// How two line segments meet. A parameter t gives the point p0 + t * (p1 - p0) of its segment.
#[derive(Clone, Copy)]
pub enum LineLineIntr {
    // Parallel and apart, on one straight line or not. A segment that is a point counts as parallel.
    NoIntersect,
    // The two meet in one point.
    TrueIntersect { seg1_t: f64, seg2_t: f64 },
    // The two overlap; both parameters are the second segment's.
    Overlapping { seg2_t0: f64, seg2_t1: f64 },
    // The straight lines cross, but beyond an end of a segment.
    FalseIntersect { seg1_t: f64, seg2_t: f64 },
}
