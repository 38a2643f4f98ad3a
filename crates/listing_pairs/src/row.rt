// A row of a listing: two segments that meet, how, and where. And what a look at a pair gives.
ghost use Rattle.std.specs.Prelude.{◌≡◌};
ghost use Rattle.listing_pairs.specs.Row as row;

use answers::class_and_points::class_and_points;
use arcs::pline_seg_intr::PlineSegIntr;

// how many whole numbers and how many floats of a row go into the two lent slices
pub const INDICES: usize = 3;

pub const POINTS: usize = 4;

// Segment i of the first path and segment j of the second meet: the class's number and its points. A point that the class lacks
// is +0.
#[derive(Clone, Copy)]
pub struct Row {
    pub i: u64,
    pub j: u64,
    pub class: u64,
    pub x1: f64,
    pub y1: f64,
    pub x2: f64,
    pub y2: f64,
}

// What a pair gives: it is skipped and does not count; or it is looked at and makes no row; or it makes one.
#[derive(Clone, Copy)]
pub enum Look {
    Skipped,
    Nothing,
    Made(Row),
}

// What the pair of segments i and j gives if they meet like this: no row if they are apart.
pub fn look_of(i: u64, j: u64, met: PlineSegIntr) -> Look
    ensures { result ≡ row.look_of i j met }
{
    let m = class_and_points(met);
    if m.class == 0 {
        return Look::Nothing;
    }
    Look::Made(Row {
        i: i,
        j: j,
        class: m.class,
        x1: m.x1,
        y1: m.y1,
        x2: m.x2,
        y2: m.y2,
    })
}
