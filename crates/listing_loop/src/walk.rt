// The pairs of one segment of the first path with a run of the second path's, block by block: a sieve first, and then a look at
// each pair that it leaves.
ghost use Rattle.std.specs.Prelude.{◌≡◌};
ghost use Rattle.listing_loop.specs.Workings.Walk as walk_of;

use super::fill::{How, Part};
use super::sift::{note, sift};
use fast_pair::kept::Kept;
use listing_pairs::order::Job;
use listing_pairs::sizes::lesser;
use listing_pairs::{look, row, rows};
use paths::path::Segment;
use sieves::flags::{BLOCK, next_left};
use sieves::lines::side_of;
use sieves::marks::{Grain, mark_of};

// How far a walk came: the rows and the pairs looked at in all, and the index before which it stopped. It is full if it stopped
// before a pair whose row has no room.
#[derive(Clone, Copy)]
pub struct Walk {
    pub rows: usize,
    pub looked: usize,
    pub j: usize,
    pub full: bool,
}

// Walks the pairs of v, which is segment i of the first path, with the segments from `from` up to, but not including, `to`, and
// looks at each. There are `rows_before` rows before, and `looked_before` pairs were looked at.
fn walk_each(
    v: Segment,
    v_kept: Kept,
    lines: bool,
    second: &[f64],
    kept: &[f64],
    sides: &[f64],
    job: Job,
    grain: Grain,
    how: How,
    part: Part,
    i: usize,
    from: usize,
    to: usize,
    rows_before: usize,
    looked_before: usize,
    marks: &mut [u64],
    indices: &mut [u64],
    points: &mut [f64],
) -> Walk
    requires { walk_of.Ready v v_kept lines second.now kept.now sides.now job grain how part i from to rows_before
        looked_before marks.old indices.old points.old }
    ensures { walk_of.Walked v second.now kept.now job grain how part i from to rows_before looked_before
        indices.old points.old marks.old
        result indices.new points.new marks.new }
{
    let mut j = from;
    let mut rows = rows_before;
    let mut looked = looked_before;
    while j < to {
        let seen = look::look(v, v_kept, second, kept, job, i, j);
        match seen {
            row::Look::Skipped => {
                j += 1;
            }
            row::Look::Nothing => {
                looked += 1;
                j += 1;
            }
            row::Look::Made(r) => {
                if rows >= part.room {
                    return Walk {
                        rows: rows,
                        looked: looked,
                        j: j,
                        full: true,
                    };
                }
                rows::put_row(part.write, indices, points, rows, r);
                note(how.noting, marks, mark_of(grain, i, j));
                rows += 1;
                looked += 1;
                j += 1;
            }
        }
    }
    Walk {
        rows: rows,
        looked: looked,
        j: j,
        full: false,
    }
}

// The same block by block: it looks at what a sieve leaves.
fn walk_left(
    v: Segment,
    v_kept: Kept,
    lines: bool,
    second: &[f64],
    kept: &[f64],
    sides: &[f64],
    job: Job,
    grain: Grain,
    how: How,
    part: Part,
    i: usize,
    from: usize,
    to: usize,
    rows_before: usize,
    looked_before: usize,
    marks: &mut [u64],
    indices: &mut [u64],
    points: &mut [f64],
) -> Walk
    requires { walk_of.Ready v v_kept lines second.now kept.now sides.now job grain how part i from to rows_before
        looked_before marks.old indices.old points.old }
    ensures { walk_of.Walked v second.now kept.now job grain how part i from to rows_before looked_before
        indices.old points.old marks.old
        result indices.new points.new marks.new }
{
    let side = side_of(v.v1, v.v2, job.epsilon);
    let mut flags = [0u64; BLOCK];
    let mut j = from;
    let mut rows = rows_before;
    let mut looked = looked_before;
    while j < to {
        let start = j;
        let end = lesser(start + BLOCK, to);
        sift(
            side,
            lines,
            how.recalling,
            sides,
            marks,
            grain,
            i,
            job.m,
            job.epsilon,
            start,
            end,
            &mut flags,
        );
        while j < end {
            let next = next_left(&flags, start, j, end);
            looked += next - j;
            j = next;
            if j < end {
                let seen = look::look_left(v, v_kept, second, kept, job, i, j);
                match seen {
                    row::Look::Skipped => {
                        j += 1;
                    }
                    row::Look::Nothing => {
                        looked += 1;
                        j += 1;
                    }
                    row::Look::Made(r) => {
                        if rows >= part.room {
                            return Walk {
                                rows: rows,
                                looked: looked,
                                j: j,
                                full: true,
                            };
                        }
                        rows::put_row(part.write, indices, points, rows, r);
                        note(how.noting, marks, mark_of(grain, i, j));
                        rows += 1;
                        looked += 1;
                        j += 1;
                    }
                }
            }
        }
    }
    Walk {
        rows: rows,
        looked: looked,
        j: j,
        full: false,
    }
}

// The same with a sieve if there is one: the sieve of lines, or marks.
pub(crate) fn walk_run(
    v: Segment,
    v_kept: Kept,
    lines: bool,
    second: &[f64],
    kept: &[f64],
    sides: &[f64],
    job: Job,
    grain: Grain,
    how: How,
    part: Part,
    i: usize,
    from: usize,
    to: usize,
    rows_before: usize,
    looked_before: usize,
    marks: &mut [u64],
    indices: &mut [u64],
    points: &mut [f64],
) -> Walk
    requires { walk_of.Ready v v_kept lines second.now kept.now sides.now job grain how part i from to rows_before
        looked_before marks.old indices.old points.old }
    ensures { walk_of.Walked v second.now kept.now job grain how part i from to rows_before looked_before
        indices.old points.old marks.old
        result indices.new points.new marks.new }
{
    if lines | how.recalling {
        return walk_left(
            v,
            v_kept,
            lines,
            second,
            kept,
            sides,
            job,
            grain,
            how,
            part,
            i,
            from,
            to,
            rows_before,
            looked_before,
            marks,
            indices,
            points,
        );
    }
    walk_each(
        v,
        v_kept,
        lines,
        second,
        kept,
        sides,
        job,
        grain,
        how,
        part,
        i,
        from,
        to,
        rows_before,
        looked_before,
        marks,
        indices,
        points,
    )
}
