// The results of a pair, written one after the other: each part of the first segment with each part of the second.
ghost use Rattle.std.specs.Prelude.{◌+◌, ◌*◌, ◌<◌, ◌≤◌, ◌≡◌, ◌++◌, length, Ok};
ghost use Rattle.std.proofs.lemmas.List.Edits.{sets};
ghost use Rattle.arcs.specs.Workings.Circles.{circle_if_arc};
ghost use Rattle.checks.specs.First.{first};
ghost use Rattle.large_pair.specs.LargePair as large;
ghost use Rattle.large_pair.specs.Workings.Pieces as pieces;
ghost use Rattle.large_pair.specs.Workings.Starts as starts;

use answers::class_and_points::class_and_points;
use arcs::circle::circle_if_arc;
use arcs::pline_seg_intr::PlineSegIntr;
use crossing::pline_seg_intersect::pline_seg_after_checks;
use cuts::cut::{Halves, is_large};
use plane::pline_seg::ArcRadiusCenter;
use plane::pline_vertex::PlineVertex;

// A part of a segment: which half it is (0 the whole, 1, 2), its ends, and its circle if it is an arc, for all its pairs.
#[derive(Clone, Copy)]
pub struct Piece {
    pub half: u64,
    pub start: PlineVertex,
    pub end: PlineVertex,
    pub circle: ArcRadiusCenter,
}

// The part from start to end with its circle.
fn with_circle(half: u64, start: PlineVertex, end: PlineVertex) -> Piece
    ensures { result ≡ pieces.with_circle half start end }
{
    let circle = circle_if_arc(start, end);
    Piece {
        half: half,
        start: start,
        end: end,
        circle: circle,
    }
}

// words and floats of a result
const WORDS: usize = 3;

const FLOATS: usize = 4;

// Writes a result to its row: both halves and the class; then the points.
pub fn put_result(
    v_half: u64,
    u_half: u64,
    met: PlineSegIntr,
    row: usize,
    results: &mut [u64],
    points: &mut [f64],
)
    requires row_in_bounds { row < large.most_results }
    requires results_room { large.most_results * large.words_a_result ≤ length results.old }
    requires points_room { large.most_results * large.floats_a_result ≤ length points.old }
    ensures results_after { results.new
        ≡ sets results.old (row * large.words_a_result) (large.words_of (pieces.result_of v_half u_half met)) }
    ensures points_after { points.new
        ≡ sets points.old (row * large.floats_a_result) (large.floats_of (pieces.result_of v_half u_half met)) }
{
    let m = class_and_points(met);
    let at = row * WORDS;
    results[at] = v_half;
    results[at + 1] = u_half;
    results[at + 2] = m.class;
    let next = row * FLOATS;
    points[next] = m.x1;
    points[next + 1] = m.y1;
    points[next + 2] = m.x2;
    points[next + 3] = m.y2;
}

// Writes how two parts meet to a row. Both are fit for the pair's own check, so that it need not be made.
fn put_pair(v: Piece, u: Piece, eps: f64, row: usize, results: &mut [u64], points: &mut [f64])
    requires row_in_bounds { row < large.most_results }
    requires results_room { large.most_results * large.words_a_result ≤ length results.old }
    requires points_room { large.most_results * large.floats_a_result ≤ length points.old }
    requires fit_pair { pieces.FitPair v u eps }
    ensures results_after { results.new
        ≡ sets results.old (row * large.words_a_result) (large.words_of (pieces.meeting eps v u)) }
    ensures points_after { points.new
        ≡ sets points.old (row * large.floats_a_result) (large.floats_of (pieces.meeting eps v u)) }
{
    let met = pline_seg_after_checks(v.start, v.end, v.circle, u.start, u.end, u.circle, eps);
    put_result(v.half, u.half, met, row, results, points);
}

// Writes how a part of the first segment meets both halves of the second, from a row on.
fn put_beside(
    v: Piece,
    u_first: Piece,
    u_second: Piece,
    eps: f64,
    row: usize,
    results: &mut [u64],
    points: &mut [f64],
)
    requires rows_in_bounds { row + 1 < large.most_results }
    requires results_room { large.most_results * large.words_a_result ≤ length results.old }
    requires points_room { large.most_results * large.floats_a_result ≤ length points.old }
    requires fit_pairs { pieces.FitPair v u_first eps × pieces.FitPair v u_second eps }
    ensures results_after { results.new
        ≡ sets results.old (row * large.words_a_result)
        (large.words_of (pieces.meeting eps v u_first)
        ++ large.words_of (pieces.meeting eps v u_second)) }
    ensures points_after { points.new
        ≡ sets points.old (row * large.floats_a_result)
        (large.floats_of (pieces.meeting eps v u_first)
        ++ large.floats_of (pieces.meeting eps v u_second)) }
{
    put_pair(v, u_first, eps, row, results, points);
    put_pair(v, u_second, eps, row + 1, results, points);
}

// Writes every result of a pair whose numbers are fine, and answers how many there are; v and u are where the parts of the
// segments start.
pub fn put_results(
    v1: PlineVertex,
    v2: PlineVertex,
    v: Halves,
    u1: PlineVertex,
    u2: PlineVertex,
    u: Halves,
    eps: f64,
    results: &mut [u64],
    points: &mut [f64],
) -> usize
    requires results_room { large.most_results * large.words_a_result ≤ length results.old }
    requires points_room { large.most_results * large.floats_a_result ≤ length points.old }
    requires v_starts { v ≡ starts.starts v1 v2 }
    requires u_starts { u ≡ starts.starts u1 u2 }
    requires fine { first (large.large_pair_checks v1 v2 u1 u2 eps) ≡ Ok tt }
    ensures { pieces.Stored (large.results_of v1 v2 u1 u2 eps) result
        results.old results.new points.old points.new }
{
    let u_cut = is_large(u1.bulge);
    if is_large(v1.bulge) {
        let v_first = with_circle(1, v.first, v.second);
        let v_second = with_circle(2, v.second, v2);
        if u_cut {
            let u_first = with_circle(1, u.first, u.second);
            let u_second = with_circle(2, u.second, u2);
            put_beside(v_first, u_first, u_second, eps, 0, results, points);
            put_beside(v_second, u_first, u_second, eps, 2, results, points);
            return 4;
        }
        let u_whole = with_circle(0, u1, u2);
        put_pair(v_first, u_whole, eps, 0, results, points);
        put_pair(v_second, u_whole, eps, 1, results, points);
        return 2;
    }
    let v_whole = with_circle(0, v1, v2);
    if u_cut {
        let u_first = with_circle(1, u.first, u.second);
        let u_second = with_circle(2, u.second, u2);
        put_beside(v_whole, u_first, u_second, eps, 0, results, points);
        return 2;
    }
    let u_whole = with_circle(0, u1, u2);
    put_pair(v_whole, u_whole, eps, 0, results, points);
    1
}
