// Numbers in a packed file. A number is at most `most`; one that would be larger is a fault as soon as that is certain, so no run
// of bytes is long enough to overflow.
ghost use Rattle.std.specs.Prelude.{◌≡◌, ◌+◌, ◌≤◌, ◌<◌, length, drop};
ghost use Rattle.layout_packed.specs.Limits as written;
ghost use Rattle.layout_packed.specs.Workings.Reader.{number_from, more_from};
ghost use Rattle.layout_packed.specs.Workings.Shown.{shown_number};

// A number and the place after it.
#[derive(Clone, Copy)]
pub struct Number {
    pub value: u64,
    pub next: usize,
}

// The number that starts at `start`. None if there is none within its range in the shortest form.
pub(crate) fn number_at(bytes: &[u8], start: usize, most: u64) -> Option<Number>
    requires { most ≤ written.coordinate }
    ensures { shown_number bytes.now start result ≡ number_from most start (drop start bytes.now) }
{
    if bytes.len() <= start {
        return None;
    }
    let b = wide(bytes[start]);
    if b < 128 {
        if b > most {
            return None;
        }
        return Some(Number {
            value: b,
            next: start + 1,
        });
    }
    more(bytes, start, most, b - 128)
}

// The same number, of which the first group is `low`, and more follow.
fn more(bytes: &[u8], start: usize, most: u64, low: u64) -> Option<Number>
    requires most_le_coordinate { most ≤ written.coordinate }
    requires low_bound { low < 128 }
    requires start_in_bounds { start < length bytes.now }
    ensures { shown_number bytes.now start result
        ≡ more_from most start 128 low (start + 1) (drop (start + 1) bytes.now) }
{
    let mut n = low;
    let mut scale: u64 = 128;
    for i in start + 1..bytes.len() {
        if scale > most {
            return None;
        }
        let b = wide(bytes[i]);
        if b < 128 {
            if b == 0 {
                return None;
            }
            let sum = n + b * scale;
            if sum > most {
                return None;
            }
            return Some(Number {
                value: sum,
                next: i + 1,
            });
        }
        n = n + (b - 128) * scale;
        scale = scale * 128;
    }
    None
}

fn wide(b: u8) -> u64
    ensures value { result ≡ b }
    ensures upper_bound { result < 256 }
{
    b as u64
}
