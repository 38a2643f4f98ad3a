// How two segments meet, in the scope's numbers. The rows of a listing and the pair call for C use them.
ghost use Rattle.std.specs.Prelude.{◌≡◌};
ghost use Rattle.answers.specs.ClassAndPoints as intr;

use arcs::pline_seg_intr::PlineSegIntr;

// The class's number and its points. A point that the class lacks is +0.
#[derive(Clone, Copy)]
pub struct ClassAndPoints {
    pub class: u64,
    pub x1: f64,
    pub y1: f64,
    pub x2: f64,
    pub y2: f64,
}

// The class and the points of an answer.
pub fn class_and_points(met: PlineSegIntr) -> ClassAndPoints
    ensures { result ≡ intr.class_and_points met }
{
    match met {
        PlineSegIntr::NoIntersect => ClassAndPoints {
            class: 0,
            x1: 0.0,
            y1: 0.0,
            x2: 0.0,
            y2: 0.0,
        },
        PlineSegIntr::TangentIntersect { point } => ClassAndPoints {
            class: 1,
            x1: point.x,
            y1: point.y,
            x2: 0.0,
            y2: 0.0,
        },
        PlineSegIntr::OneIntersect { point } => ClassAndPoints {
            class: 2,
            x1: point.x,
            y1: point.y,
            x2: 0.0,
            y2: 0.0,
        },
        PlineSegIntr::TwoIntersects { point1, point2 } => ClassAndPoints {
            class: 3,
            x1: point1.x,
            y1: point1.y,
            x2: point2.x,
            y2: point2.y,
        },
        PlineSegIntr::OverlappingLines { point1, point2 } => ClassAndPoints {
            class: 4,
            x1: point1.x,
            y1: point1.y,
            x2: point2.x,
            y2: point2.y,
        },
        PlineSegIntr::OverlappingArcs { point1, point2 } => ClassAndPoints {
            class: 5,
            x1: point1.x,
            y1: point1.y,
            x2: point2.x,
            y2: point2.y,
        },
    }
}
