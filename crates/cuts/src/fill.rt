// The path with every large arc cut, written to a lent slice, and the names of its segments, written to another.
ghost use Rattle.std.specs.Prelude.{◌≡◌, ◌+◌, ◌*◌, ◌<◌, ◌≤◌, length};
ghost use Rattle.std.proofs.lemmas.List.Edits.{sets};
ghost use Rattle.paths.specs.Path as path_of;
ghost use Rattle.cuts.specs.CutPath;
ghost use Rattle.cuts.specs.Written.{Put};
ghost use Rattle.cuts.specs.Workings.Words;

use super::cut::{halve, is_large};
use paths::path::NUMBERS;
use paths::{path, segments};
use plane::pline_vertex::PlineVertex;

// Writes a vertex and its trace from place `at` on.
fn put_vertex(out: &mut [f64], at: usize, v: PlineVertex, trace: f64)
    requires { at + path_of.numbers_a_vertex ≤ length out.old }
    ensures { out.new ≡ sets out.old at (CutPath.numbers_of v trace) }
{
    out[at] = v.x;
    out[at + 1] = v.y;
    out[at + 2] = v.bulge;
    out[at + 3] = trace;
}

// Writes what vertex i of a path with n segments becomes from place `at` on. It answers the place behind it.
fn put_vertices(path: &[f64], n: usize, i: usize, out: &mut [f64], at: usize) -> usize
    requires i_bound { i < path_of.vertex_count path.now }
    requires room { at + path_of.numbers_a_vertex * 2 ≤ length out.old }
    ensures { Put (CutPath.vertices_of path.now n i) out.old at out.new result }
{
    let s = segments::segment_from(path, i);
    if (i < n) & is_large(s.v1.bulge) {
        let h = halve(s.v1, s.v2);
        put_vertex(out, at, h.first, s.trace);
        put_vertex(out, at + NUMBERS, h.second, s.trace);
        return at + NUMBERS * 2;
    }
    put_vertex(out, at, s.v1, s.trace);
    at + NUMBERS
}

// Writes the cut path to the front of `out` and answers how many numbers it has. There must be room for twice the path's numbers.
pub fn cut_into(path: &[f64], closed: bool, out: &mut [f64]) -> usize
    requires { length path.now * 2 ≤ length out.old }
    ensures { Put (CutPath.cut_path path.now closed) out.old 0 out.new result }
{
    let n = segments::segment_count(path, closed);
    let mut at = 0;
    for i in 0..path::vertex_count(path) {
        at = put_vertices(path, n, i, out, at);
    }
    at
}

// Writes the names of what segment i becomes from place `at` on. It answers the place behind them.
fn put_names(path: &[f64], i: usize, names: &mut [u64], at: usize) -> usize
    requires i_bound { (i < path_of.vertex_count path.now) × (i < path_of.most_vertices) }
    requires at_in_bounds { at + 2 ≤ length names.old }
    ensures { Put (Words.words_of path.now i) names.old at names.new result }
{
    let v = path::vertex(path, i);
    let whole = i as u64 * HALVES;
    if is_large(v.bulge) {
        names[at] = whole + 1;
        names[at + 1] = whole + 2;
        return at + 2;
    }
    names[at] = whole;
    at + 1
}

// a name is an index times this, plus the half
pub const HALVES: u64 = 4;

// Writes the names of the cut path's segments to the front of `names`, each as its old index times 4 plus the half (0 uncut, 1,
// 2), and answers how many there are. There must be room for two names a vertex of the path.
pub fn names_into(path: &[f64], closed: bool, names: &mut [u64]) -> usize
    requires { path_of.vertex_count path.now * 2 ≤ length names.old }
    ensures { Put (CutPath.name_words path.now closed) names.old 0 names.new result }
{
    let mut at = 0;
    for i in 0..segments::segment_count(path, closed) {
        at = put_names(path, i, names, at);
    }
    at
}
