// The loop of every listing: it makes rows from a given pair on, as many as fit, and passes no more pairs than its budget.
ghost use Rattle.std.specs.Prelude.{◌≡◌, true, ◌≤◌, ◌<◌, ◌-◌, ◌*◌, length};
ghost use Rattle.listing_pairs.specs.Row as RowDefs;
ghost use Rattle.listing_pairs.specs.Page;
ghost use Rattle.listing_pairs.specs.Workings.Job as JobDefs;
ghost use Rattle.listing_pairs.specs.Workings.Keeping;
ghost use Rattle.listing_pairs.specs.Workings.Ready;
ghost use Rattle.sieves.specs.Workings.Lines as LineDefs;
ghost use Rattle.sieves.specs.Workings.Marks as marks_of;
ghost use Rattle.listing_loop.specs.Workings.Filling as filling;

use super::run::{box_for, next_run};
use super::sift::by_lines;
use super::walk::walk_run;
use fast_pair::kept::kept_of;
use listing_pairs::order;
use listing_pairs::order::Job;
use paths::segments;
use sieves::marks::grain_of;

// A part of a listing: the pair (i, j) from which on it goes, the rows that stand before it, how many rows there is room for in
// all, and how many pairs it may pass. It writes its rows if `write`, else it only counts them.
#[derive(Clone, Copy)]
pub struct Part {
    pub i: usize,
    pub j: usize,
    pub rows: usize,
    pub room: usize,
    pub budget: usize,
    pub write: bool,
}

// How a part is walked: by the sieve of lines if `sieved`; the pairs that make a row are marked if `noting`; and only marked pairs
// are looked at if `recalling`. None of these changes an answer.
#[derive(Clone, Copy)]
pub struct How {
    pub sieved: bool,
    pub noting: bool,
    pub recalling: bool,
}

// How far the loop came: the rows in all, the pairs that it passed, how many of these it looked at, and the pair before which it
// stopped, or that it reached the end.
#[derive(Clone, Copy)]
pub struct Filling {
    pub rows: usize,
    pub passed: usize,
    pub looked: usize,
    pub i: usize,
    pub j: usize,
    pub ended: bool,
}

// Where the indices from j on end: at `to`, or after as many as the budget allows.
fn end_within(j: usize, to: usize, budget: usize) -> usize
    ensures { result ≡ filling.end_within j to budget }
{
    if j < to {
        if budget < to - j {
            return j + budget;
        }
    }
    to
}

// Walks the pairs of a part. It stops at the end, when the budget is spent, or before a pair whose row has no room. `kept` is
// kept of the second path's segments that it can reach, with the boxes of a boxed listing behind it; `sides` is what the sieve of
// lines keeps of them, and is read only if the part is sieved.
pub fn fill(
    first: &[f64],
    second: &[f64],
    kept: &[f64],
    sides: &[f64],
    job: Job,
    how: How,
    part: Part,
    marks: &mut [u64],
    indices: &mut [u64],
    points: &mut [f64],
) -> Filling
    requires ready { Keeping.Ready first.now second.now kept.now job part.i part.j part.budget }
    requires i_le_n { (part.i ≤ job.n) × (part.rows ≤ part.room) }
    requires room_in_bounds { (part.room * RowDefs.indices_a_row ≤ length indices.old) × (part.room * RowDefs.points_a_row ≤ length points.old) }
    requires sides_kept { how.sieved ≡ true → LineDefs.SidesKept second.now sides.now job.epsilon job.m }
    requires recalls { marks_of.Recalls (Ready.look_by first.now second.now job) job part.i part.j how.recalling marks.old }
    ensures filled { filling.Filled job part
        (Page.page (Ready.look_by first.now second.now job) (JobDefs.left job part.i part.j)
        (part.room - part.rows) part.budget)
        result indices.old indices.new points.old points.new }
    ensures notes { marks_of.Notes (Ready.look_by first.now second.now job) job part.i part.j how.noting
        result.ended marks.old marks.new }
{
    let grain = grain_of(job.n, job.m, marks.len());
    let mut j = part.j;
    let mut rows = part.rows;
    let mut budget = part.budget;
    let mut looked = 0;
    for i in part.i..job.n {
        let v = segments::segment_from(first, i);
        let v_kept = kept_of(v.v1, v.v2, job.epsilon);
        let v_box = box_for(v, v_kept, job);
        let lines = by_lines(how.sieved, v, job.epsilon);
        let to = job.m;
        let start = j;
        let end = end_within(start, to, budget);
        while j < end {
            let run = next_run(second, kept, v_box, v.trace, job, j, end);
            let walk = walk_run(
                v, v_kept, lines, second, kept, sides, job, grain, how, part, i, run.from, run.to,
                rows, looked, marks, indices, points,
            );
            j = walk.j;
            rows = walk.rows;
            looked = walk.looked;
            if walk.full {
                return Filling {
                    rows: rows,
                    passed: part.budget - (budget - (j - start)),
                    looked: looked,
                    i: i,
                    j: j,
                    ended: false,
                };
            }
        }
        budget -= j - start;
        if j < to {
            return Filling {
                rows: rows,
                passed: part.budget - budget,
                looked: looked,
                i: i,
                j: j,
                ended: false,
            };
        }
        j = order::from(job, i + 1);
    }
    Filling {
        rows: rows,
        passed: part.budget - budget,
        looked: looked,
        i: job.n,
        j: j,
        ended: true,
    }
}
