// The check of a pair's numbers in the mode of large arcs.
ghost use Rattle.std.specs.Prelude.{◌≡◌};
ghost use Rattle.checks.specs.First.{first};
ghost use Rattle.large_pair.specs.LargePair.{large_pair_checks};
ghost use Rattle.large_pair.specs.Workings.Starts as starts;
ghost use Rattle.large_pair.specs.Workings.PartsFine;

use checks::fault::Checked;
use checks::number::inside;
use checks::{chain, each, limit};
use cuts::cut::{Halves, is_large};
use fast_pair::all_fine::{epsilon_fine, segment_fine};
use plane::pline_vertex::PlineVertex;

// Whether all numbers of a segment are fine, by comparisons alone: of one that is cut, those of both halves. h is where its parts
// start. A no leaves it open.
fn parts_fine(v1: PlineVertex, v2: PlineVertex, h: Halves) -> bool
    ensures { result ≡ PartsFine.parts_fine v1 v2 h }
{
    if is_large(v1.bulge) {
        let first_fine = segment_fine(h.first, h.second);
        return inside(limit::LARGE_BULGE, v1.bulge) & (first_fine & segment_fine(h.second, v2));
    }
    segment_fine(v1, v2)
}

// The first fault of a pair's numbers, number by number: epsilon; v1, v2, u1 and u2, each x before y, and the bulge of v1 and of
// u1 after its y; then the segments v and u, each by its cut point and the chords of its halves, or by its own chord.
#[tactic(auto, unfolding(checks::specs::Fault::later))]
fn check_large_pair(
    v1: PlineVertex,
    v2: PlineVertex,
    u1: PlineVertex,
    u2: PlineVertex,
    pos_equal_eps: f64,
) -> Checked
    ensures { result ≡ first (large_pair_checks v1 v2 u1 u2 pos_equal_eps) }
{
    each::epsilon(pos_equal_eps)?;
    cuts::check::vertex(v1.x, v1.y, v1.bulge, 0, 0)?;
    chain::point(v2.x, v2.y, 0, 1)?;
    cuts::check::vertex(u1.x, u1.y, u1.bulge, 1, 0)?;
    chain::point(u2.x, u2.y, 1, 1)?;
    cuts::check::segment(v1, v2, 0, 0)?;
    cuts::check::segment(u1, u2, 1, 0)
}

// The first fault of a pair's numbers, by a quick test first; v and u are where the parts of the segments start.
pub fn large_checked(
    v1: PlineVertex,
    v2: PlineVertex,
    v: Halves,
    u1: PlineVertex,
    u2: PlineVertex,
    u: Halves,
    pos_equal_eps: f64,
) -> Checked
    requires v_starts { v ≡ starts.starts v1 v2 }
    requires u_starts { u ≡ starts.starts u1 u2 }
    ensures { result ≡ first (large_pair_checks v1 v2 u1 u2 pos_equal_eps) }
{
    if epsilon_fine(pos_equal_eps) & (parts_fine(v1, v2, v) & parts_fine(u1, u2, u)) {
        return Ok(());
    }
    check_large_pair(v1, v2, u1, u2, pos_equal_eps)
}
