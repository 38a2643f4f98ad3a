// How an answer goes to a caller in C: a number is returned, and four values go into a lent slice.
ghost use Rattle.capi.specs.Handed;

use answers::padded::PaddedAnswer;

// how many values an answer has
pub const PLACES: usize = 4;

// what is returned if a slice has too few places
pub const NO_ROOM: u64 = 512;

// Writes an answer's four values to the front of `out` and returns its number, or a refusal's word. Nothing is written if `out`
// has no room for four, or if the answer is a refusal.
pub fn hand_over(padded: PaddedAnswer, out: &mut [f64]) -> u64
    ensures { Handed.Handed padded result out.old out.new }
{
    if out.len() < PLACES {
        return NO_ROOM;
    }
    if padded.refused {
        return padded.number;
    }
    out[0] = padded.a;
    out[1] = padded.b;
    out[2] = padded.c;
    out[3] = padded.d;
    padded.number
}
