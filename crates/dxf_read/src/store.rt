// The floats of the vertices, four for each, written as their groups are read. Vertices past the most that a path may have are
// not written.
ghost use Rattle.std.specs.Prelude.{◌≡◌, ◌≤◌, ◌<◌, eqb, length};
ghost use Rattle.layouts.specs.Layout.{whole};
ghost use Rattle.paths.specs.Path.{numbers_a_vertex};
ghost use Rattle.dxf_form.specs.Numbers as numbers;
ghost use Rattle.dxf_read.specs.Workings.Scanning.{room, started, changed, stored};

use super::pair::Pair;
use dxf_form::order::Turn;
use dxf_form::value::{TRACE, value};
use paths::path::{NUMBERS, VERTICES};

// how many floats the most vertices have
pub const ROOM: usize = VERTICES * NUMBERS;

// Starts the vertex after the first n: x, and 0 for y, the bulge and the trace.
fn start_vertex(out: &mut [f64], n: usize, x: f64)
    requires { room ≤ length out.old }
    ensures { out.new ≡ started x n out.old }
{
    if n < VERTICES {
        let to = n * NUMBERS;
        out[to] = x;
        out[to + 1] = 0.0;
        out[to + 2] = 0.0;
        out[to + 3] = TRACE;
    }
}

// Changes number k of the last of n vertices.
fn change_last(out: &mut [f64], n: usize, k: usize, v: f64)
    requires room_in_bounds { room ≤ length out.old }
    requires k_in_vertex { k < numbers_a_vertex }
    ensures { out.new ≡ changed k v n out.old }
{
    if n == 0 {
        return;
    }
    if n > VERTICES {
        return;
    }
    out[(n - 1) * NUMBERS + k] = v;
}

// Writes what a group gives after n vertices, by the sign and the millionths of its number.
pub fn store(out: &mut [f64], n: usize, pair: Pair)
    requires { room ≤ length out.old }
    ensures { out.new ≡ stored pair.turn (numbers.value (whole (eqb pair.minuses 1) pair.number)) n out.old }
{
    match pair.turn {
        Turn::Count => {}
        Turn::Flags => {}
        Turn::X => start_vertex(out, n, value(pair.minuses == 1, pair.number)),
        Turn::Y => change_last(out, n, 1, value(pair.minuses == 1, pair.number)),
        Turn::Bulge => change_last(out, n, 2, value(pair.minuses == 1, pair.number)),
        Turn::Other => {}
        Turn::OutOfPlace => {}
    }
}
