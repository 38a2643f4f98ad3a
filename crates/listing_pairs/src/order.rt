// Which pairs a listing looks at, in order: the first path's index is the outer one, and both rise.
ghost use Rattle.std.specs.Prelude.{◌≡◌, ◌≤◌, ◌-◌};
ghost use Rattle.paths.specs.Path;
ghost use Rattle.listing_pairs.specs.Workings.Job as JobDefs;
ghost use Rattle.listing_pairs.specs.Workings.Position;

use super::sizes::less;

// What a listing works on: n segments of the first path, m of the second, and epsilon. In a self listing (`own`) both are the
// same path. A boxed listing looks at a pair only if the boxes of its segments meet.
#[derive(Clone, Copy)]
pub struct Job {
    pub n: usize,
    pub m: usize,
    pub own: bool,
    pub closed: bool,
    pub boxed: bool,
    pub epsilon: f64,
}

// A place in the walk: before the pair (i, j).
#[derive(Clone, Copy)]
pub struct Spot {
    pub i: usize,
    pub j: usize,
}

// The first j of the pairs (i, j). In a self listing it is i + 1: a pair with a smaller j came earlier, as (j, i).
pub fn from(job: Job, i: usize) -> usize
    requires { i ≤ Path.most_segments }
    ensures { result ≡ JobDefs.from job i }
{
    if job.own {
        return i + 1;
    }
    0
}

// How many pairs (i, j) there are.
pub fn pairs_at(job: Job, i: usize) -> usize
    requires { i ≤ Path.most_segments }
    ensures { result ≡ JobDefs.to job i - JobDefs.from job i }
{
    let start = from(job, i);
    less(job.m, start)
}

// How many pairs there are in all.
pub fn count(job: Job) -> usize
    requires { (job.n ≤ Path.most_segments) × (job.m ≤ Path.most_segments) }
    ensures { result ≡ Position.count job }
{
    let mut sum = 0;
    for i in 0..job.n {
        sum += pairs_at(job, i);
    }
    sum
}

// Where a pair stands before which there are `position` others: at the end if there are no more.
pub fn locate(job: Job, position: usize) -> Spot
    requires { (job.n ≤ Path.most_segments) × (job.m ≤ Path.most_segments) }
    ensures { result ≡ Position.locate job position }
{
    let mut rest = position;
    for i in 0..job.n {
        let here = pairs_at(job, i);
        if rest < here {
            return Spot {
                i: i,
                j: from(job, i) + rest,
            };
        }
        rest -= here;
    }
    Spot {
        i: job.n,
        j: from(job, job.n),
    }
}
