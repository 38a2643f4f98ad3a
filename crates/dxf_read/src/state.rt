// What the groups read so far give: all but the vertices' floats, which store.rt writes.
ghost use Rattle.std.specs.Prelude.{◌≡◌, ◌≤◌};
ghost use Rattle.dxf_read.specs.Workings.Scanning.{stepped};

use super::pair::Pair;
use super::scan::State;
use dxf_form::order::Turn;

// The state after a group, which stands below so many lines.
pub(crate) fn step(s: State, pair: Pair, lines: u64) -> State
    requires vertices_bound { s.vertices ≤ 9000000000000000000 }
    requires lines_bound { lines ≤ 18000000000000000000 }
    ensures { result ≡ stepped s pair.turn pair.number lines }
{
    match pair.turn {
        Turn::Count => State {
            count: pair.number,
            count_line: lines + 2,
            ..s
        },
        Turn::Flags => State {
            closed: pair.number % 2 == 1,
            ..s
        },
        Turn::X => State {
            vertices: s.vertices + 1,
            ..s
        },
        Turn::Y => State { ..s },
        Turn::Bulge => State { ..s },
        Turn::Other => State { ..s },
        Turn::OutOfPlace => State { ..s },
    }
}
