// A vertex of a path: a position, and the bulge of the segment that starts there.
ghost use Rattle.std.specs.Prelude.{◌≡◌};
ghost use Rattle.plane.specs.PlineVertex as vertex;

use super::fuzzy;
use super::vector2::Vector2;

#[derive(Clone, Copy)]
pub struct PlineVertex {
    pub x: f64,
    pub y: f64,
    pub bulge: f64,
}

impl PlineVertex {
    // The vertex at x, y with this bulge.
    pub fn new(x: f64, y: f64, bulge: f64) -> PlineVertex
        ensures { result ≡ vertex.new x y bulge }
    {
        PlineVertex { x, y, bulge }
    }

    // Where the vertex is.
    pub fn pos(self) -> Vector2
        ensures { result ≡ vertex.pos self }
    {
        Vector2 {
            x: self.x,
            y: self.y,
        }
    }

    // Whether the segment that starts here is a line: its bulge is near zero by the default epsilon.
    pub fn bulge_is_zero(self) -> bool
        ensures { result ≡ vertex.bulge_is_zero self }
    {
        fuzzy::fuzzy_eq_zero(self.bulge)
    }

    // Whether the arc that starts here runs clockwise. A zero of either sign does not.
    pub fn bulge_is_neg(self) -> bool
        ensures { result ≡ vertex.bulge_is_neg self }
    {
        self.bulge < 0.0
    }
}
