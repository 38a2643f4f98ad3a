// What a view of a path answers, for callers that have the path's slice and its flag: each call makes a view and asks it.
ghost use Rattle.std.specs.Prelude.{◌≡◌};
ghost use Rattle.paths.specs.View;

use paths::path::Segment;
use paths::view;

pub fn segment_count(path: &[f64], closed: bool) -> usize
    ensures { result ≡ View.segment_count (View.view_of path.entry closed) }
{
    view::segment_count(view::view_of(path, closed))
}

pub fn segment(path: &[f64], closed: bool, i: usize) -> Option<Segment>
    ensures { result ≡ View.segment (View.view_of path.entry closed) i }
{
    view::segment(view::view_of(path, closed), i)
}
