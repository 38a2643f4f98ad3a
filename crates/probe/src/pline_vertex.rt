// What a vertex says of its bulge.
ghost use Rattle.std.specs.Prelude.{◌≡◌};
ghost use Rattle.plane.specs.PlineVertex.{bulge_is_zero, bulge_is_neg};
ghost use Rattle.probe.specs.Numbers.{vertex};

use plane::pline_vertex::PlineVertex;

#[unsafe(no_mangle)]
pub extern "C" fn vjp_bulge_is_zero(x: f64, y: f64, bulge: f64) -> bool
    ensures { result ≡ bulge_is_zero (vertex x y bulge) }
{
    PlineVertex { x, y, bulge }.bulge_is_zero()
}

#[unsafe(no_mangle)]
pub extern "C" fn vjp_bulge_is_neg(x: f64, y: f64, bulge: f64) -> bool
    ensures { result ≡ bulge_is_neg (vertex x y bulge) }
{
    PlineVertex { x, y, bulge }.bulge_is_neg()
}
