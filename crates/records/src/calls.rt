// The calls that a record can have, by the number of their name (`text::name`).
ghost use Rattle.std.specs.Prelude.{◌≡◌, ◌≤◌};
ghost use Rattle.records.specs.Text.{most_numbers};
ghost use Rattle.records.specs.Calls.{numbers_of, is_ours};

use super::{names, on_crossing, on_floats, on_plane, text};

// How many numbers a text line of this call has, operands and answers; 0 if there is no such call.
pub fn numbers(call: u64) -> usize
    ensures value { result ≡ numbers_of call }
    ensures upper_bound { result ≤ most_numbers }
{
    if call == names::ABS {
        return 3;
    }
    if call == names::MIN {
        return 3;
    }
    if call == names::MAX {
        return 3;
    }
    if call == names::SQRT {
        return 3;
    }
    if call == names::MIN_MAX {
        return 4;
    }
    if call == names::DIST_SQUARED {
        return 5;
    }
    if call == names::POINT_FROM_PARAMETRIC {
        return 7;
    }
    if call == names::PARAMETRIC_FROM_POINT {
        return 8;
    }
    if call == names::SEG_ARC {
        return 9;
    }
    if call == names::LINE_LINE {
        return 14;
    }
    if call == names::LINE_CIRCLE {
        return 13;
    }
    if call == names::CIRCLE_CIRCLE {
        return 12;
    }
    if call == names::PLINE_SEG {
        return 18;
    }
    0
}

// Whether the call gives a text line's answers for its operands. No if there is no such call.
pub fn is_ours(call: u64, body: &[u8]) -> bool
    ensures { result ≡ is_ours call body.now }
{
    if call == names::MIN_MAX {
        return on_plane::min_max(body);
    }
    if call == names::DIST_SQUARED {
        return on_plane::dist_squared(body);
    }
    if call == names::POINT_FROM_PARAMETRIC {
        return on_plane::point_from_parametric(body);
    }
    if call == names::PARAMETRIC_FROM_POINT {
        return on_plane::parametric_from_point(body);
    }
    if call == names::SEG_ARC {
        return on_plane::seg_arc_radius_and_center(body);
    }
    if call == names::LINE_LINE {
        return on_crossing::line_line(body);
    }
    if call == names::LINE_CIRCLE {
        return on_crossing::line_circle(body);
    }
    if call == names::CIRCLE_CIRCLE {
        return on_crossing::circle_circle(body);
    }
    if call == names::PLINE_SEG {
        return on_crossing::pline_seg(body);
    }
    on_floats::agrees(
        call,
        text::value(body, 0),
        text::value(body, 1),
        text::value(body, 2),
    )
}
