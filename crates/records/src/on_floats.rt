// Whether `floats` gives a recorded answer.
ghost use Rattle.std.specs.Prelude.{◌≡◌};
ghost use Rattle.records.specs.OnFloats.{agrees_of, on_patterns, on_numbers, is_answer};

use super::names::{ABS, MAX, MIN, SQRT};
use super::text::is_nan;

// Whether the call gives the answer: on patterns, and also on f64 if the operands are numbers.
pub fn agrees(call: u64, a: u64, b: u64, answer: u64) -> bool
    ensures { result ≡ agrees_of call a b answer }
{
    if on_patterns(call, a, b, answer) {
        if is_nan(a) {
            return true;
        }
        if is_nan(b) {
            return true;
        }
        return on_numbers(call, f64::from_bits(a), f64::from_bits(b), answer);
    }
    false
}

// Whether the call on patterns gives the answer. No if there is no such call.
fn on_patterns(call: u64, a: u64, b: u64, answer: u64) -> bool
    ensures { result ≡ on_patterns call a b answer }
{
    if call == ABS {
        return floats::bits::abs(a) == answer;
    }
    if call == MIN {
        return floats::bits::min(a, b) == answer;
    }
    if call == MAX {
        return floats::bits::max(a, b) == answer;
    }
    if call == SQRT {
        return floats::bits::sqrt(a) == answer;
    }
    false
}

// Whether the call on f64 gives the answer.
fn on_numbers(call: u64, x: f64, y: f64, answer: u64) -> bool
    ensures { result ≡ on_numbers call x y answer }
{
    if call == ABS {
        return is_answer(floats::abs(x), answer);
    }
    if call == MIN {
        return is_answer(floats::min(x, y), answer);
    }
    if call == MAX {
        return is_answer(floats::max(x, y), answer);
    }
    if call == SQRT {
        return is_answer(floats::sqrt(x), answer);
    }
    false
}

// Whether the number has this pattern. Any NaN goes with any NaN's pattern.
fn is_answer(x: f64, pattern: u64) -> bool
    ensures { result ≡ is_answer x pattern }
{
    if x != x {
        return is_nan(pattern);
    }
    f64::to_bits(x) == pattern
}
