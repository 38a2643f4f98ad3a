// What is read off an answer of the old mode: whether it is refusal 3, and its rows, which are spread. And whether a path begins
// with a large arc, so that the old mode need not be asked.
ghost use Rattle.std.specs.Prelude.{◌≡◌, ◌≤◌, ◌*◌, length};
ghost use Rattle.large_outcomes.specs.LargeRow;
ghost use Rattle.large_outcomes.specs.Workings.Spread as spread_of;
ghost use Rattle.large_calls.specs.Workings.Answers;

use checks::refusal;
use cuts::cut::is_large;
use large_outcomes::spread::spread_zeros;
use listing_outcomes::answer::{ListingAnswer, PageAnswer};
use paths::path;

// Whether a listing is refused for a bulge.
pub fn listed_bulge(answer: ListingAnswer) -> bool
    ensures { result ≡ Answers.listed_bulge answer }
{
    match answer {
        Err(fault) => fault.number == refusal::BULGE,
        Ok(_) => false,
    }
}

// Whether a page is refused for a bulge.
pub fn paged_bulge(answer: PageAnswer) -> bool
    ensures { result ≡ Answers.paged_bulge answer }
{
    match answer {
        Err(fault) => fault.number == refusal::BULGE,
        Ok(_) => false,
    }
}

// Spreads the rows of a listing, if it has any.
pub fn spread_listed(answer: ListingAnswer, indices: &mut [u64])
    requires { Answers.listed_rows answer * LargeRow.large_indices_a_row ≤ length indices.old }
    ensures { indices.new ≡ spread_of.spread spread_of.zero_halves (Answers.listed_rows answer) indices.old }
{
    if let Ok(counts) = answer {
        spread_zeros(counts.rows, indices);
    }
}

// Spreads the rows of a page, if it has any.
pub fn spread_paged(answer: PageAnswer, indices: &mut [u64])
    requires { Answers.paged_rows answer * LargeRow.large_indices_a_row ≤ length indices.old }
    ensures { indices.new ≡ spread_of.spread spread_of.zero_halves (Answers.paged_rows answer) indices.old }
{
    if let Ok(counts) = answer {
        spread_zeros(counts.rows, indices);
    }
}

// Whether the first bulge of a path is above 1 in magnitude. Then the paths are cut at once. Since the cut is so called from two
// places, the compiler leaves it a function of its own, and its buffers are not on the stack of a call that cuts nothing.
pub fn starts_large(path: &[f64]) -> bool
    ensures { result ≡ Answers.starts_large path.now }
{
    if path::vertex_count(path) > 0 {
        let v = path::vertex(path, 0);
        return is_large(v.bulge);
    }
    false
}
