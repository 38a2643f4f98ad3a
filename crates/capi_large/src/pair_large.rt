// How two segments of polylines meet, each of which may be an arc beyond a half circle: up to four results, which go into two
// lent slices.
ghost use Rattle.std.specs.Prelude.{◌≡◌};
ghost use Rattle.capi.specs.Handed.{vertex};
ghost use Rattle.capi_large.specs.HandedLarge as handed;
ghost use Rattle.large_pair.specs.LargePair.{large_pair};

use capi::hand_over::NO_ROOM;
use checks::call::CallError;
use checks::word::word;
use large_pair::{LargePair, pair};
use plane::pline_vertex::PlineVertex;

// What is returned of an answer: how many results there are, the word of a refusal, or the code of no room.
fn large_code(answer: LargePair) -> u64
    ensures { result ≡ handed.large_code answer }
{
    match answer {
        Err(error) => match error {
            CallError::NoRoom => NO_ROOM,
            CallError::Refused(fault) => word(fault),
        },
        Ok(count) => count as u64,
    }
}

// How the segments v1 to v2 and u1 to u2 meet, part by part.
#[unsafe(no_mangle)]
pub extern "C" fn vj_pair_large(
    v1x: f64,
    v1y: f64,
    v1_bulge: f64,
    v2x: f64,
    v2y: f64,
    v2_bulge: f64,
    u1x: f64,
    u1y: f64,
    u1_bulge: f64,
    u2x: f64,
    u2y: f64,
    u2_bulge: f64,
    epsilon: f64,
    results: &mut [u64],
    out: &mut [f64],
) -> u64
    ensures { handed.HandedLarge (large_pair
        (vertex v1x v1y v1_bulge) (vertex v2x v2y v2_bulge) (vertex u1x u1y u1_bulge) (vertex u2x u2y u2_bulge) epsilon
        results.old out.old)
        result results.new out.new }
{
    let answer = pair::pline_seg_large(
        PlineVertex {
            x: v1x,
            y: v1y,
            bulge: v1_bulge,
        },
        PlineVertex {
            x: v2x,
            y: v2y,
            bulge: v2_bulge,
        },
        PlineVertex {
            x: u1x,
            y: u1y,
            bulge: u1_bulge,
        },
        PlineVertex {
            x: u2x,
            y: u2y,
            bulge: u2_bulge,
        },
        epsilon,
        results,
        out,
    );
    large_code(answer)
}
