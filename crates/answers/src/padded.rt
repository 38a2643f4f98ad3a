// A call's answer as plain numbers: a refusal, or the number of its case with four values.
ghost use Rattle.std.specs.Prelude.{◌≡◌};
ghost use Rattle.answers.specs.Padded as padding;

use super::class_and_points::class_and_points;
use arcs::pline_seg_intr::PlineSegIntr;
use checks::fault::Fault;
use checks::word::word;
use crossing::circle_circle_intr::CircleCircleIntr;
use crossing::line_circle_intr::LineCircleIntr;
use crossing::line_line_intr::LineLineIntr;

// A refusal and its word, or the number of the case and four values. Values that the case lacks are +0.
#[derive(Clone, Copy)]
pub struct PaddedAnswer {
    pub refused: bool,
    pub number: u64,
    pub a: f64,
    pub b: f64,
    pub c: f64,
    pub d: f64,
}

// The refusal of a fault, with its word.
fn refusal(fault: Fault) -> PaddedAnswer
    ensures { result ≡ padding.refusal fault }
{
    PaddedAnswer {
        refused: true,
        number: word(fault),
        a: 0.0,
        b: 0.0,
        c: 0.0,
        d: 0.0,
    }
}

// A case and its values.
fn case(number: u64, a: f64, b: f64, c: f64, d: f64) -> PaddedAnswer
    ensures { result ≡ padding.case number a b c d }
{
    PaddedAnswer {
        refused: false,
        number: number,
        a: a,
        b: b,
        c: c,
        d: d,
    }
}

// The answer of the call on two lines.
pub fn of_line_line(answer: Result<LineLineIntr, Fault>) -> PaddedAnswer
    ensures { result ≡ padding.of_line_line answer }
{
    match answer {
        Err(fault) => refusal(fault),
        Ok(intr) => match intr {
            LineLineIntr::NoIntersect => case(0, 0.0, 0.0, 0.0, 0.0),
            LineLineIntr::TrueIntersect { seg1_t, seg2_t } => case(1, seg1_t, seg2_t, 0.0, 0.0),
            LineLineIntr::Overlapping { seg2_t0, seg2_t1 } => case(2, seg2_t0, seg2_t1, 0.0, 0.0),
            LineLineIntr::FalseIntersect { seg1_t, seg2_t } => case(3, seg1_t, seg2_t, 0.0, 0.0),
        },
    }
}

// The answer of the call on a line and a circle.
pub fn of_line_circle(answer: Result<LineCircleIntr, Fault>) -> PaddedAnswer
    ensures { result ≡ padding.of_line_circle answer }
{
    match answer {
        Err(fault) => refusal(fault),
        Ok(intr) => match intr {
            LineCircleIntr::NoIntersect => case(0, 0.0, 0.0, 0.0, 0.0),
            LineCircleIntr::TangentIntersect { t0 } => case(1, t0, 0.0, 0.0, 0.0),
            LineCircleIntr::TwoIntersects { t0, t1 } => case(2, t0, t1, 0.0, 0.0),
        },
    }
}

// The answer of the call on two circles.
pub fn of_circle_circle(answer: Result<CircleCircleIntr, Fault>) -> PaddedAnswer
    ensures { result ≡ padding.of_circle_circle answer }
{
    match answer {
        Err(fault) => refusal(fault),
        Ok(intr) => match intr {
            CircleCircleIntr::NoIntersect => case(0, 0.0, 0.0, 0.0, 0.0),
            CircleCircleIntr::TangentIntersect { point } => case(1, point.x, point.y, 0.0, 0.0),
            CircleCircleIntr::TwoIntersects { point1, point2 } => {
                case(2, point1.x, point1.y, point2.x, point2.y)
            }
            CircleCircleIntr::Overlapping => case(3, 0.0, 0.0, 0.0, 0.0),
        },
    }
}

// The answer of the call on two segments.
pub fn of_pline_seg(answer: Result<PlineSegIntr, Fault>) -> PaddedAnswer
    ensures { result ≡ padding.of_pline_seg answer }
{
    match answer {
        Err(fault) => refusal(fault),
        Ok(intr) => {
            let m = class_and_points(intr);
            case(m.class, m.x1, m.y1, m.x2, m.y2)
        }
    }
}
