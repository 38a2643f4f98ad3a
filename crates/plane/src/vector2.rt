// A point of the plane, or the step from one point to another.
ghost use Rattle.std.specs.Prelude.{◌≡◌};
ghost use Rattle.plane.specs.Vector2 as vector2;

use super::fuzzy;

// Two are equal if they are exactly the same position. Zeros of either sign are equal.
#[derive(Clone, Copy, PartialEq)]
pub struct Vector2 {
    pub x: f64,
    pub y: f64,
}

impl Vector2 {
    // The point at x, y.
    pub fn new(x: f64, y: f64) -> Vector2
        ensures { result ≡ vector2.new x y }
    {
        Vector2 { x, y }
    }

    // The sum, coordinate by coordinate.
    pub fn add(self, other: Vector2) -> Vector2
        ensures { result ≡ vector2.add self other }
    {
        Vector2 {
            x: self.x + other.x,
            y: self.y + other.y,
        }
    }

    // The step from `other` to here, coordinate by coordinate.
    pub fn sub(self, other: Vector2) -> Vector2
        ensures { result ≡ vector2.sub self other }
    {
        Vector2 {
            x: self.x - other.x,
            y: self.y - other.y,
        }
    }

    // Each coordinate times the factor.
    pub fn scale(self, factor: f64) -> Vector2
        ensures { result ≡ vector2.scale self factor }
    {
        Vector2 {
            x: self.x * factor,
            y: self.y * factor,
        }
    }

    // The dot product.
    pub fn dot(self, other: Vector2) -> f64
        ensures { result ≡ vector2.dot self other }
    {
        self.x * other.x + self.y * other.y
    }

    // The dot product of `other` and this one after a quarter turn to the left. It is zero if the two are parallel.
    pub fn perp_dot(self, other: Vector2) -> f64
        ensures { result ≡ vector2.perp_dot self other }
    {
        self.x * other.y - self.y * other.x
    }

    // This step after a quarter turn to the left.
    pub fn perp(self) -> Vector2
        ensures { result ≡ vector2.perp self }
    {
        Vector2 {
            x: -self.y,
            y: self.x,
        }
    }

    // The square of the length: the dot product with itself.
    pub fn length_squared(self) -> f64
        ensures { result ≡ vector2.length_squared self }
    {
        self.dot(self)
    }

    // The length: the root of the dot product with itself, rounded to the nearest.
    pub fn length(self) -> f64
        ensures { result ≡ vector2.length self }
    {
        floats::sqrt(self.dot(self))
    }

    // Whether the two are near each other in x and in y. Their distance is not used.
    pub fn fuzzy_eq_eps(self, other: Vector2, eps: f64) -> bool
        ensures { result ≡ vector2.fuzzy_eq_eps self other eps }
    {
        fuzzy::fuzzy_eq_eps(self.x, other.x, eps) & fuzzy::fuzzy_eq_eps(self.y, other.y, eps)
    }
}
