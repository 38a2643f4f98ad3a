// The exports of `probe::pline_vertex`: each is the function of its name there, with its contract.
ghost use Rattle.std.specs.Prelude.{◌≡◌};
ghost use Rattle.plane.specs.PlineVertex.{bulge_is_zero, bulge_is_neg};
ghost use Rattle.probe.specs.Numbers.{vertex};

#[unsafe(no_mangle)]
pub extern "C" fn vjp_bulge_is_zero(x: f64, y: f64, bulge: f64) -> bool
    ensures { result ≡ bulge_is_zero (vertex x y bulge) }
{
    probe::pline_vertex::vjp_bulge_is_zero(x, y, bulge)
}

#[unsafe(no_mangle)]
pub extern "C" fn vjp_bulge_is_neg(x: f64, y: f64, bulge: f64) -> bool
    ensures { result ≡ bulge_is_neg (vertex x y bulge) }
{
    probe::pline_vertex::vjp_bulge_is_neg(x, y, bulge)
}
