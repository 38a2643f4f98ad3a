// Puts the text lines of an answer, one after the other.
ghost use Rattle.std.specs.Prelude.{◌+◌, ◌*◌, ◌≤◌, length};
ghost use Rattle.answer_lines.specs.Lines as lines;
ghost use Rattle.put_text.specs.Workings.Put.{Put, PutIn};
ghost use Rattle.answer_lines.specs.Sizes as sizes;

use super::put::put_number;
use super::{INDICES, POINTS};
use put_text::{put_byte, put_whole, put_word};

// The name of a class.
fn put_class(out: &mut [u8], at: usize, class: u64) -> usize
    requires { at + sizes.name ≤ length out.old }
    ensures { PutIn sizes.name (lines.class_text class) out.old at out.new result }
{
    if class == 1 {
        return put_word(out, at, b"tangent");
    }
    if class == 2 {
        return put_word(out, at, b"one");
    }
    if class == 3 {
        return put_word(out, at, b"two");
    }
    if class == 4 {
        return put_word(out, at, b"lines");
    }
    if class == 5 {
        return put_word(out, at, b"arcs");
    }
    put_word(out, at, b"none")
}

// The points that a class has.
fn put_points(out: &mut [u8], at: usize, class: u64, x1: f64, y1: f64, x2: f64, y2: f64) -> usize
    requires { at + sizes.points ≤ length out.old }
    ensures { PutIn sizes.points (lines.points_text class x1 y1 x2 y2) out.old at out.new result }
{
    if class < 1 {
        return at;
    }
    if class < 3 {
        let x = put_number(out, at, x1);
        return put_number(out, x, y1);
    }
    if class < 6 {
        let a = put_number(out, at, x1);
        let b = put_number(out, a, y1);
        let c = put_number(out, b, x2);
        return put_number(out, c, y2);
    }
    at
}

// A row's text line, which has at most LINE bytes.
fn put_row(
    out: &mut [u8],
    at: usize,
    i: u64,
    j: u64,
    class: u64,
    x1: f64,
    y1: f64,
    x2: f64,
    y2: f64,
) -> usize
    requires { at + sizes.line ≤ length out.old }
    ensures { PutIn sizes.line (lines.row_text i j class x1 y1 x2 y2) out.old at out.new result }
{
    let a = put_whole(out, at, i);
    let b = put_byte(out, a, b' ');
    let c = put_whole(out, b, j);
    let d = put_byte(out, c, b' ');
    let e = put_class(out, d, class);
    let f = put_points(out, e, class, x1, y1, x2, y2);
    put_byte(out, f, b'\n')
}

// The text line with the counts, which has at most LINE bytes.
pub fn put_counts(out: &mut [u8], pairs: u64, rows: u64) -> usize
    requires { sizes.line ≤ length out.old }
    ensures { PutIn sizes.line (lines.count_text pairs rows) out.old 0 out.new result }
{
    let a = put_word(out, 0, b"pairs ");
    let b = put_whole(out, a, pairs);
    let c = put_word(out, b, b" rows ");
    let d = put_whole(out, c, rows);
    put_byte(out, d, b'\n')
}

// The text lines of the rows.
pub fn put_rows(out: &mut [u8], start: usize, rows: usize, index: &[u64], points: &[f64]) -> usize
    requires indices_in_bounds { rows * lines.indices_a_row ≤ length index.now }
    requires points_in_bounds { rows * lines.points_a_row ≤ length points.now }
    requires line_in_bounds { start + rows * sizes.line ≤ length out.old }
    ensures { Put (lines.rows_text index.now points.now rows 0) out.old start out.new result }
{
    let mut at = start;
    for k in 0..rows {
        let i = k * INDICES;
        let p = k * POINTS;
        at = put_row(
            out,
            at,
            index[i],
            index[i + 1],
            index[i + 2],
            points[p],
            points[p + 1],
            points[p + 2],
            points[p + 3],
        );
    }
    at
}
