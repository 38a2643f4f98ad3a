// A fault and its place, what a check answers, and the step that makes a chain of checks answer its first fault.
ghost use Rattle.std.specs.Prelude.{◌≡◌};
ghost use Rattle.checks.specs.Fault as fault;

// Which of the owner's numbers. `Length` is how many numbers a path has, `Rows` how many rows a listing has or has room for;
// `Position` and `Budget` are a page's, `Boxes` is a boxed listing's index, `Trace` is a path's vertex's, and `Report` is a
// counted listing's. `Line` is a line of a drawing's text, by its number from 1 on, and `Room` is the lent slice that an import
// or an export writes to. `CutX` and `CutY` are the coordinates of the point at which a large arc is cut.
#[derive(Clone, Copy)]
pub enum Item {
    Epsilon,
    X,
    Y,
    Bulge,
    Radius,
    CenterX,
    CenterY,
    Chord,
    Length,
    Rows,
    Position,
    Budget,
    Boxes,
    Trace,
    Report,
    Line,
    Room,
    CutX,
    CutY,
}

// Where a number stands in a call.
#[derive(Clone, Copy)]
pub struct Place {
    // which thing of the call: a kernel's point or circle in the order of the arguments, a pair's segment (0 v, 1 u), a listing's
    // path (0, 1)
    pub owner: u64,
    // which end, vertex or segment of it; 0 if there is only one
    pub index: u64,
    pub item: Item,
}

// A number that is refused: the scope's number of the refusal, and where the number stands.
#[derive(Clone, Copy)]
pub struct Fault {
    pub number: u64,
    pub place: Place,
}

// What a check answers: fine, or the fault.
pub type Checked = Result<(), Fault>;

// The place of an owner's number.
pub fn at(owner: u64, index: u64, item: Item) -> Place
    ensures { result ≡ fault.at owner index item }
{
    Place {
        owner: owner,
        index: index,
        item: item,
    }
}

// The fault with this number at a place that has no owner and no index.
pub fn whole(number: u64, item: Item) -> Fault
    ensures { result ≡ fault.whole number item }
{
    Fault {
        number: number,
        place: at(0, 0, item),
    }
}

// The fault with this number and place if `bad`, else fine.
pub fn refuse(bad: bool, number: u64, place: Place) -> Checked
    ensures { result ≡ fault.refuse bad number place }
{
    let fault = Fault {
        number: number,
        place: place,
    };
    if bad {
        return Err(fault);
    }
    Ok(())
}

// The first fault of two checks: the one of `earlier`, or, if that is fine, what `next` says.
pub fn later(earlier: Checked, next: Checked) -> Checked
    ensures { result ≡ fault.later earlier next }
{
    match earlier {
        Ok(()) => next,
        Err(fault) => Err(fault),
    }
}
