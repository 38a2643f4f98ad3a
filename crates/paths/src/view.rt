// A view of a lent path holds the slice and the flag together. Its functions call those of the path.
ghost use Rattle.std.specs.Prelude.{◌≡◌};
ghost use Rattle.paths.specs.View;

use super::segments;
use crate::path::Segment;

#[derive(Clone, Copy)]
pub struct PathView<'a> {
    pub vertices: &'a [f64],
    pub closed: bool,
}

// The view of a path, whose numbers are lent.
pub fn view_of<'a>(vertices: &'a [f64], closed: bool) -> PathView<'a>
    ensures { result ≡ View.view_of vertices.entry closed }
{
    PathView { vertices, closed }
}

// How many segments the viewed path has; none if `shape` refuses it.
pub fn segment_count<'a>(view: PathView<'a>) -> usize
    ensures { result ≡ View.segment_count view.entry }
{
    segments::segment_count(view.vertices, view.closed)
}

// Segment i of the viewed path, or none if i is no segment's index.
pub fn segment<'a>(view: PathView<'a>, i: usize) -> Option<Segment>
    ensures { result ≡ View.segment view.entry i }
{
    segments::segment(view.vertices, view.closed, i)
}
