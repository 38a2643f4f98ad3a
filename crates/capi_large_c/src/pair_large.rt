// The exports of `capi_large::pair_large`: each is the function of its name there, with its contract.
ghost use Rattle.capi.specs.Handed.{vertex};
ghost use Rattle.capi_large.specs.HandedLarge as handed;
ghost use Rattle.large_pair.specs.LargePair.{large_pair};

// How the segments v1 to v2 and u1 to u2 meet, part by part.
#[unsafe(no_mangle)]
pub extern "C" fn vj_pair_large(
    v1x: f64,
    v1y: f64,
    v1_bulge: f64,
    v2x: f64,
    v2y: f64,
    v2_bulge: f64,
    u1x: f64,
    u1y: f64,
    u1_bulge: f64,
    u2x: f64,
    u2y: f64,
    u2_bulge: f64,
    epsilon: f64,
    results: &mut [u64],
    out: &mut [f64],
) -> u64
    ensures { handed.HandedLarge (large_pair
        (vertex v1x v1y v1_bulge) (vertex v2x v2y v2_bulge) (vertex u1x u1y u1_bulge) (vertex u2x u2y u2_bulge) epsilon
        results.old out.old)
        result results.new out.new }
{
    capi_large::pair_large::vj_pair_large(
        v1x, v1y, v1_bulge, v2x, v2y, v2_bulge, u1x, u1y, u1_bulge, u2x, u2y, u2_bulge, epsilon,
        results, out,
    )
}
