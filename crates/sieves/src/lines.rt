// The sieve of lines: of one line segment and a block of segments it takes away the lines that are clearly apart from it. It has
// no branch for a pair, and the numbers that it reads stand side by side, so that the compiler works out two pairs at a time.
ghost use Rattle.std.specs.Prelude.{◌≡◌, ◌≤◌, ◌<◌, ◌+◌, ◌-◌, ◌*◌, length};
ghost use Rattle.paths.specs.Path;
ghost use Rattle.sieves.specs.Workings.Flags;
ghost use Rattle.sieves.specs.Workings.Lines as LineDefs;

use super::flags::flag;
use fast_pair::lines::quotient_outside;
use paths::segments;
use plane::fuzzy::fuzzy_eq_zero_eps;
use plane::pline_vertex::PlineVertex;
use ranges::range::usual;

// how many numbers the sieve keeps of a segment
pub const NUMBERS: usize = 4;

// What the sieve keeps of a segment: where it starts, and its vector. If the segment is no line of usual length, its vector is
// NaN twice. Then no comparison says yes, and the sieve leaves it.
#[derive(Clone, Copy)]
pub struct Side {
    pub x: f64,
    pub y: f64,
    pub dx: f64,
    pub dy: f64,
}

// Whether the segment from v1 to v2 is a line of usual length, so that the sieve can judge it.
pub fn usual_line(v1: PlineVertex, v2: PlineVertex, eps: f64) -> bool
    ensures { result ≡ LineDefs.usual_line v1 v2 eps }
{
    let way = v2.pos().sub(v1.pos());
    v1.bulge_is_zero() & usual(way.length_squared(), eps)
}

// What the sieve keeps of the segment from v1 to v2.
pub fn side_of(v1: PlineVertex, v2: PlineVertex, eps: f64) -> Side
    ensures { result ≡ LineDefs.side_of v1 v2 eps }
{
    let dx = v2.x - v1.x;
    let dy = v2.y - v1.y;
    if usual_line(v1, v2, eps) {
        return Side {
            x: v1.x,
            y: v1.y,
            dx: dx,
            dy: dy,
        };
    }
    let none = 0.0 / 0.0;
    Side {
        x: v1.x,
        y: v1.y,
        dx: none,
        dy: none,
    }
}

// Stores what the sieve keeps of the path's first n segments: all x, then all y, then the vectors' x, then their y.
pub fn keep_sides(path: &[f64], n: usize, eps: f64, sides: &mut [f64])
    requires n_bound { (n ≤ Path.vertex_count path.now) × (n ≤ Path.most_segments) }
    requires n_in_bounds { n * LineDefs.numbers_of_side ≤ length sides.old }
    ensures { sides.new ≡ LineDefs.keep_sides path.now n eps n sides.old }
{
    for j in 0..n {
        let s = segments::segment_from(path, j);
        let side = side_of(s.v1, s.v2, eps);
        sides[j] = side.x;
        sides[n + j] = side.y;
        sides[n + n + j] = side.dx;
        sides[n + n + n + j] = side.dy;
    }
}

// What is kept of segment j of n.
fn side_at(sides: &[f64], n: usize, j: usize) -> Side
    requires { (j < n) × (n ≤ Path.most_segments) × (n * LineDefs.numbers_of_side ≤ length sides.now) }
    ensures { result ≡ LineDefs.side_at sides.now n j }
{
    Side {
        x: sides[j],
        y: sides[n + j],
        dx: sides[n + n + j],
        dy: sides[n + n + n + j],
    }
}

// How many of n segments the sieve can judge: those whose vector is a number.
pub fn judged(sides: &[f64], n: usize) -> usize
    requires { (n ≤ Path.most_segments) × (n * LineDefs.numbers_of_side ≤ length sides.now) }
    ensures { result ≡ LineDefs.judged sides.now n n }
{
    let mut count = 0;
    for j in 0..n {
        let side = side_at(sides, n, j);
        if side.dx == side.dx {
            count += 1;
        }
    }
    count
}

// Whether two lines of usual length are clearly apart: as `fast_pair::lines::lines_apart`, with no branch.
fn sides_apart(v: Side, u: Side, eps: f64) -> bool
    ensures { result ≡ LineDefs.sides_apart v u eps }
{
    let wx = v.x - u.x;
    let wy = v.y - u.y;
    let d = v.dx * u.dy - v.dy * u.dx;
    let n = u.dx * wy - u.dy * wx;
    let m = v.dx * wy - v.dy * wx;
    let parallel = fuzzy_eq_zero_eps(d, eps);
    (parallel & !fuzzy_eq_zero_eps(n, eps))
        | (!parallel & (quotient_outside(n, d) | quotient_outside(m, d)))
}

// Writes the flags of the indices from `from` up to, but not including, `to`: v's pair with each is left, unless the two are lines
// clearly apart.
pub fn sift_lines(
    v: Side,
    sides: &[f64],
    n: usize,
    eps: f64,
    from: usize,
    to: usize,
    flags: &mut [u64],
)
    requires n_bound { (n ≤ Path.most_segments) × (n * LineDefs.numbers_of_side ≤ length sides.now) }
    requires from_le_to { (from ≤ to) × (to ≤ n) × (to - from ≤ length flags.old) }
    ensures { flags.new ≡ Flags.flags (LineDefs.lines_left v sides.now n eps) from to flags.old }
{
    for j in from..to {
        let u = side_at(sides, n, j);
        flags[j - from] = flag(!sides_apart(v, u, eps));
    }
}
