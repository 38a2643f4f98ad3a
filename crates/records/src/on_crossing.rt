// Whether the crossing calls give the answers of a text line. It has the operands, in the order of the C call's parameters, then
// the number that the call returns, then the four values of the answer.
ghost use Rattle.std.specs.Prelude.{◌≡◌, ◌<◌, ◌+◌};
ghost use Rattle.records.specs.Text.{most_numbers};
ghost use Rattle.records.specs.OnCrossing;

use super::on_plane::{point, same, vertex};
use super::text::{number, value};
use answers::padded;
use answers::padded::PaddedAnswer;
use crossing::{circle_circle_intersect, line_circle_intersect, line_line_intersect};
use fast_pair::pair;

// Whether the two lines of a text line meet as it says.
pub fn line_line(body: &[u8]) -> bool
    ensures { result ≡ OnCrossing.line_line body.now }
{
    let met = line_line_intersect::line_line_intr(
        point(body, 0),
        point(body, 2),
        point(body, 4),
        point(body, 6),
        number(body, 8),
    );
    is_answer(padded::of_line_line(met), body, 9)
}

// Whether the line and the circle of a text line meet as it says.
pub fn line_circle(body: &[u8]) -> bool
    ensures { result ≡ OnCrossing.line_circle body.now }
{
    let met = line_circle_intersect::line_circle_intr(
        point(body, 0),
        point(body, 2),
        number(body, 4),
        point(body, 5),
        number(body, 7),
    );
    is_answer(padded::of_line_circle(met), body, 8)
}

// Whether the circles of a text line meet as it says.
pub fn circle_circle(body: &[u8]) -> bool
    ensures { result ≡ OnCrossing.circle_circle body.now }
{
    let met = circle_circle_intersect::circle_circle_intr(
        number(body, 0),
        point(body, 1),
        number(body, 3),
        point(body, 4),
        number(body, 6),
    );
    is_answer(padded::of_circle_circle(met), body, 7)
}

// Whether the segments of a text line meet as it says.
pub fn pline_seg(body: &[u8]) -> bool
    ensures { result ≡ OnCrossing.pline_seg body.now }
{
    let met = pair::pline_seg_intr(
        vertex(body, 0),
        vertex(body, 3),
        vertex(body, 6),
        vertex(body, 9),
        number(body, 12),
    );
    is_answer(padded::of_pline_seg(met), body, 13)
}

// Whether the answer is the one that the text line has from number i on. A refusal is the word of its fault.
fn is_answer(numbers: PaddedAnswer, body: &[u8], i: usize) -> bool
    requires { i + 4 < most_numbers }
    ensures { result ≡ OnCrossing.is_answer numbers body.now i }
{
    let recorded = value(body, i);
    if numbers.refused {
        return recorded == numbers.number;
    }
    (recorded == numbers.number)
        & same(numbers.a, number(body, i + 1))
        & same(numbers.b, number(body, i + 2))
        & same(numbers.c, number(body, i + 3))
        & same(numbers.d, number(body, i + 4))
}
