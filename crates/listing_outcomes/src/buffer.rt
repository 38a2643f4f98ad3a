// A listing of two checked paths into the caller's slices, if all rows fit. Only here is a listing's refusal 8 decided: it is
// the answer if there are more rows than both slices have room for, and then nothing is written.
ghost use Rattle.listing_pairs.specs.Workings.Job as JobDefs;
ghost use Rattle.listing_pairs.specs.Workings.Keeping;
ghost use Rattle.listing_pairs.specs.Workings.Ready;
ghost use Rattle.paths.specs.Path;
ghost use Rattle.sieves.specs.Workings.Lines as LineDefs;
ghost use Rattle.listing_outcomes.specs.Outcome;
ghost use Rattle.listing_outcomes.specs.Workings.Outcome as outcome_of;
ghost use Rattle.std.specs.Prelude.{◌≤◌, ◌<◌, ◌*◌, length, ◌≡◌, true, false};

use super::answer::{Counts, ListingAnswer};
use super::room::row_room;
use checks::fault::{Item, whole};
use checks::refusal;
use listing_loop::fill::{Filling, How, Part, fill};
use listing_pairs::order::Job;
use listing_pairs::sizes::lesser;
use listing_pairs::{keeping, order, row, rows, tracks};
use paths::path;
use sieves::lines;
use sieves::lines::{judged, keep_sides};

// how many rows the buffer holds back until it is known that all fit: 112 KiB
const ROWS: usize = 2048;

// how many words of marks there are for the rows behind these: 128 KiB, a mark each for a million pairs
const MARKS: usize = 16384;

// The sieve of lines is worth its preparation from so many segments of the second path and so many pairs on.
const SIEVED_SEGMENTS: usize = 32;

const SIEVED_PAIRS: usize = 2048;

// It is used if it can judge at least seven of eight segments: blocks only cost where it leaves most.
const MOST_OF: usize = 7;

const OF_ALL: usize = 8;

// As many pairs as there can be: each segment of one path with each of the other.
fn every_pair(job: Job) -> usize
    requires { (job.n ≤ Path.most_segments) × (job.m ≤ Path.most_segments) }
    ensures { result ≡ job.n * job.m }
{
    job.n * job.m
}

// The listing of a job whose first ROWS rows are held back, up to the pair at which `held` stopped, which makes one more. It
// walks the remaining pairs twice: it counts their rows and marks the pairs, then looks at the marked ones and writes if all rows
// fit.
fn list_behind(
    first: &[f64],
    second: &[f64],
    kept: &[f64],
    sides: &[f64],
    sieved: bool,
    job: Job,
    held: Filling,
    held_indices: &[u64],
    held_points: &[f64],
    room: usize,
    indices: &mut [u64],
    points: &mut [f64],
) -> ListingAnswer
    requires all_ready { Keeping.AllReady first.now second.now kept.now job }
    requires room_value { room ≡ Outcome.room indices.old points.old }
    requires held_rows_le_room { outcome_of.held_rows ≤ room }
    requires held { outcome_of.Held (Ready.look_by first.now second.now job) job outcome_of.held_rows held
        held_indices.now held_points.now }
    requires sides_kept { sieved ≡ true → LineDefs.SidesKept second.now sides.now job.epsilon job.m }
    ensures { Outcome.Leaves (outcome_of.listed (Ready.look_by first.now second.now job) (JobDefs.every job)
        indices.old points.old)
        result indices.new points.new }
{
    let budget = every_pair(job);
    let count = Part {
        i: held.i,
        j: held.j,
        rows: ROWS,
        room: room,
        budget: budget,
        write: false,
    };
    let noting = How {
        sieved: sieved,
        noting: true,
        recalling: false,
    };
    let mut marks = [0u64; MARKS];
    let counted = fill(
        first, second, kept, sides, job, noting, count, &mut marks, indices, points,
    );
    if counted.ended {
        rows::copy_rows(held_indices, held_points, ROWS, indices, points);
        let behind = Part {
            i: held.i,
            j: held.j,
            rows: ROWS,
            room: room,
            budget: budget,
            write: true,
        };
        let recalling = How {
            sieved: sieved,
            noting: false,
            recalling: true,
        };
        let more = fill(
            first, second, kept, sides, job, recalling, behind, &mut marks, indices, points,
        );
        return Ok(Counts {
            rows: more.rows,
            pairs: held.looked + more.looked,
        });
    }
    Err(whole(refusal::ROWS, Item::Rows))
}

// The listing of a job. A buffer holds its rows back until it is known that all fit.
fn list_held_back(
    first: &[f64],
    second: &[f64],
    kept: &[f64],
    sides: &[f64],
    sieved: bool,
    job: Job,
    room: usize,
    indices: &mut [u64],
    points: &mut [f64],
) -> ListingAnswer
    requires all_ready { Keeping.AllReady first.now second.now kept.now job }
    requires room_value { room ≡ Outcome.room indices.old points.old }
    requires sides_kept { sieved ≡ true → LineDefs.SidesKept second.now sides.now job.epsilon job.m }
    ensures { Outcome.Leaves (outcome_of.listed (Ready.look_by first.now second.now job) (JobDefs.every job)
        indices.old points.old)
        result indices.new points.new }
{
    let mut held_indices = [0u64; ROWS * row::INDICES];
    let mut held_points = [0.0f64; ROWS * row::POINTS];
    let start = order::from(job, 0);
    let most = lesser(room, ROWS);
    let budget = every_pair(job);
    let front = Part {
        i: 0,
        j: start,
        rows: 0,
        room: most,
        budget: budget,
        write: true,
    };
    let how = How {
        sieved: sieved,
        noting: false,
        recalling: false,
    };
    let mut none = [0u64; 1];
    let held = fill(
        first,
        second,
        kept,
        sides,
        job,
        how,
        front,
        &mut none,
        &mut held_indices,
        &mut held_points,
    );
    if held.ended {
        rows::copy_rows(&held_indices, &held_points, held.rows, indices, points);
        return Ok(Counts {
            rows: held.rows,
            pairs: held.looked,
        });
    }
    if room <= ROWS {
        return Err(whole(refusal::ROWS, Item::Rows));
    }
    list_behind(
        first,
        second,
        kept,
        sides,
        sieved,
        job,
        held,
        &held_indices,
        &held_points,
        room,
        indices,
        points,
    )
}

// The listing of a job. `sides` is what the sieve of lines keeps of the second path's segments, and is read only if `sieved`.
fn list_by(
    first: &[f64],
    second: &[f64],
    kept: &[f64],
    sides: &[f64],
    sieved: bool,
    job: Job,
    indices: &mut [u64],
    points: &mut [f64],
) -> ListingAnswer
    requires all_ready { Keeping.AllReady first.now second.now kept.now job }
    requires sides_kept { sieved ≡ true → LineDefs.SidesKept second.now sides.now job.epsilon job.m }
    ensures { Outcome.Leaves (outcome_of.listed (Ready.look_by first.now second.now job) (JobDefs.every job)
        indices.old points.old)
        result indices.new points.new }
{
    let room = row_room(indices.len(), points.len());
    let budget = every_pair(job);
    // there is room for a row of every pair
    if budget <= room {
        let start = order::from(job, 0);
        let whole = Part {
            i: 0,
            j: start,
            rows: 0,
            room: room,
            budget: budget,
            write: true,
        };
        let how = How {
            sieved: sieved,
            noting: false,
            recalling: false,
        };
        let mut none = [0u64; 1];
        let all = fill(
            first, second, kept, sides, job, how, whole, &mut none, indices, points,
        );
        return Ok(Counts {
            rows: all.rows,
            pairs: all.looked,
        });
    }
    list_held_back(
        first, second, kept, sides, sieved, job, room, indices, points,
    )
}

// The listing of a job by the sieve of lines.
fn list_sieved(
    first: &[f64],
    second: &[f64],
    kept: &[f64],
    job: Job,
    indices: &mut [u64],
    points: &mut [f64],
) -> ListingAnswer
    requires all_ready { Keeping.AllReady first.now second.now kept.now job }
    requires m_bound { job.m ≤ Path.most_vertices }
    ensures { Outcome.Leaves (outcome_of.listed (Ready.look_by first.now second.now job) (JobDefs.every job)
        indices.old points.old)
        result indices.new points.new }
{
    // for each segment that a path may have: 128 KiB
    let mut sides = [0.0f64; path::VERTICES * lines::NUMBERS];
    keep_sides(second, job.m, job.epsilon, &mut sides);
    let lines = judged(&sides, job.m);
    let sieved = job.m * MOST_OF <= lines * OF_ALL;
    list_by(first, second, kept, &sides, sieved, job, indices, points)
}

// The listing of a job; `kept` is kept of the second path's segments, with the boxes of a boxed listing behind it. A boxed listing
// looks at few pairs in a row, for which the sieve of lines is not worth its preparation.
pub(crate) fn list_kept(
    first: &[f64],
    second: &[f64],
    kept: &[f64],
    job: Job,
    indices: &mut [u64],
    points: &mut [f64],
) -> ListingAnswer
    requires { Keeping.AllReady first.now second.now kept.now job }
    ensures { Outcome.Leaves (outcome_of.listed (Ready.look_by first.now second.now job) (JobDefs.every job)
        indices.old points.old)
        result indices.new points.new }
{
    let m = job.m;
    let pairs = every_pair(job);
    if (m > path::VERTICES) | ((m < SIEVED_SEGMENTS) | ((pairs < SIEVED_PAIRS) | job.boxed)) {
        return list_by(first, second, kept, kept, false, job, indices, points);
    }
    list_sieved(first, second, kept, job, indices, points)
}

// The listing of a job that is not boxed. If it has more rows than fit, the answer is refusal 8, and nothing is written to
// `indices` and `points`. `kept` is for what it keeps of the second path's segments: nothing is read from it that was not
// written before.
pub fn list_in(
    first: &[f64],
    second: &[f64],
    job: Job,
    kept: &mut [f64],
    indices: &mut [u64],
    points: &mut [f64],
) -> ListingAnswer
    requires ready { Ready.Ready first.now second.now job }
    requires boxed_value { job.boxed ≡ false }
    requires m_in_bounds { Keeping.floats_before job.m ≤ length kept.old }
    ensures leaves { Outcome.Leaves (outcome_of.listed (Ready.look_by first.now second.now job) (JobDefs.every job)
        indices.old points.old)
        result indices.new points.new }
    ensures kept_len_unchanged { length kept.new ≡ length kept.old }
{
    tracks::keep_traces(second, job.m, kept);
    keeping::keep(second, 0, job.m, job.epsilon, kept);
    list_kept(first, second, kept, job, indices, points)
}

// The same of a job whose second path has no more segments than a path has vertices.
pub fn list(
    first: &[f64],
    second: &[f64],
    job: Job,
    indices: &mut [u64],
    points: &mut [f64],
) -> ListingAnswer
    requires ready { Ready.Ready first.now second.now job }
    requires boxed_value { (job.boxed ≡ false) × (job.m ≤ Path.most_vertices) }
    ensures { Outcome.Leaves (outcome_of.listed (Ready.look_by first.now second.now job) (JobDefs.every job)
        indices.old points.old)
        result indices.new points.new }
{
    // for each segment that a path may have and each group that a listing walks: 132 KiB
    let mut kept = [0.0f64; path::VERTICES * keeping::NUMBERS + tracks::GROUPS];
    list_in(first, second, job, &mut kept, indices, points)
}
