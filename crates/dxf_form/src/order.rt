// The order of the groups: what is due, and what a code is for where it stands.
ghost use Rattle.std.specs.Prelude.{◌≡◌};
ghost use Rattle.dxf_form.specs.Order as order;

// What is due: the count; the flags; a vertex or the end; a vertex's y; its bulge, the next vertex or the end.
#[derive(Clone, Copy, PartialEq, Eq, Debug)]
pub enum Due {
    Count,
    Flags,
    Vertex,
    Y,
    Bulge,
}

// What a code is for: one of the groups that count, one to be skipped, or out of place.
#[derive(Clone, Copy, PartialEq, Eq, Debug)]
pub enum Turn {
    Count,
    Flags,
    X,
    Y,
    Bulge,
    Other,
    OutOfPlace,
}

// the codes that count
pub const COUNT: u64 = 90;

pub const FLAGS: u64 = 70;

pub const X: u64 = 10;

pub const Y: u64 = 20;

pub const BULGE: u64 = 42;

// The turn of code 90.
fn count_turn(due: Due) -> Turn
    ensures { result ≡ order.count_turn due }
{
    match due {
        Due::Count => Turn::Count,
        Due::Flags => Turn::OutOfPlace,
        Due::Vertex => Turn::OutOfPlace,
        Due::Y => Turn::OutOfPlace,
        Due::Bulge => Turn::OutOfPlace,
    }
}

// The turn of code 70.
fn flags_turn(due: Due) -> Turn
    ensures { result ≡ order.flags_turn due }
{
    match due {
        Due::Count => Turn::OutOfPlace,
        Due::Flags => Turn::Flags,
        Due::Vertex => Turn::OutOfPlace,
        Due::Y => Turn::OutOfPlace,
        Due::Bulge => Turn::OutOfPlace,
    }
}

// The turn of code 10.
fn x_turn(due: Due) -> Turn
    ensures { result ≡ order.x_turn due }
{
    match due {
        Due::Count => Turn::OutOfPlace,
        Due::Flags => Turn::OutOfPlace,
        Due::Vertex => Turn::X,
        Due::Y => Turn::OutOfPlace,
        Due::Bulge => Turn::X,
    }
}

// The turn of code 20.
fn y_turn(due: Due) -> Turn
    ensures { result ≡ order.y_turn due }
{
    match due {
        Due::Count => Turn::OutOfPlace,
        Due::Flags => Turn::OutOfPlace,
        Due::Vertex => Turn::OutOfPlace,
        Due::Y => Turn::Y,
        Due::Bulge => Turn::OutOfPlace,
    }
}

// The turn of code 42.
fn bulge_turn(due: Due) -> Turn
    ensures { result ≡ order.bulge_turn due }
{
    match due {
        Due::Count => Turn::OutOfPlace,
        Due::Flags => Turn::OutOfPlace,
        Due::Vertex => Turn::OutOfPlace,
        Due::Y => Turn::OutOfPlace,
        Due::Bulge => Turn::Bulge,
    }
}

// What a code is for where it stands.
#[tactic(auto, unfolding(crate::specs::Order::turn_at))]
pub fn turn_at(due: Due, code: u64) -> Turn
    ensures { result ≡ order.turn_at due code }
{
    if code == COUNT {
        return count_turn(due);
    }
    if code == FLAGS {
        return flags_turn(due);
    }
    if code == X {
        return x_turn(due);
    }
    if code == Y {
        return y_turn(due);
    }
    if code == BULGE {
        return bulge_turn(due);
    }
    Turn::Other
}

// What is due after a turn.
pub fn after(due: Due, turn: Turn) -> Due
    ensures { result ≡ order.after due turn }
{
    match turn {
        Turn::Count => Due::Flags,
        Turn::Flags => Due::Vertex,
        Turn::X => Due::Y,
        Turn::Y => Due::Bulge,
        Turn::Bulge => Due::Vertex,
        Turn::Other => due,
        Turn::OutOfPlace => due,
    }
}

// Whether the text may end here.
pub fn may_end(due: Due) -> bool
    ensures { result ≡ order.may_end due }
{
    matches!(due, Due::Vertex | Due::Bulge)
}
