// The pair call in the mode of large arcs.
ghost use Rattle.std.specs.Prelude.{◌≡◌};
ghost use Rattle.large_pair.specs.LargePair as large;

use super::LargePair;
use super::check::large_checked;
use super::put::{put_result, put_results};
use super::starts::starts;
use checks::call::CallError;
use fast_pair::all_fine::pair_fine;
use fast_pair::pair::pline_seg_once;
use plane::pline_vertex::PlineVertex;

// the words and floats of four results
const RESULTS: usize = 12;

const POINTS: usize = 16;

// How the segments v1 to v2 and u1 to u2 meet, each of which may be an arc beyond a half circle: an answer for each part of the
// first with each part of the second. Most often neither is cut, and the quick test of the pair call shows it.
pub fn pline_seg_large(
    v1: PlineVertex,
    v2: PlineVertex,
    u1: PlineVertex,
    u2: PlineVertex,
    pos_equal_eps: f64,
    results: &mut [u64],
    points: &mut [f64],
) -> LargePair
    ensures { large.LeavesLarge
        (large.large_pair v1 v2 u1 u2 pos_equal_eps results.old points.old)
        result results.new points.new }
{
    if results.len() < RESULTS {
        return Err(CallError::NoRoom);
    }
    if points.len() < POINTS {
        return Err(CallError::NoRoom);
    }
    if pair_fine(v1, v2, u1, u2, pos_equal_eps) {
        let met = pline_seg_once(v1, v2, u1, u2, pos_equal_eps);
        put_result(0, 0, met, 0, results, points);
        return Ok(1);
    }
    let v = starts(v1, v2);
    let u = starts(u1, u2);
    large_checked(v1, v2, v, u1, u2, u, pos_equal_eps)?;
    let count = put_results(v1, v2, v, u1, u2, u, pos_equal_eps, results, points);
    Ok(count)
}
