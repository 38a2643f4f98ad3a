// The kinds of a byte: 0 to 9 are the digits, by their values, and these are the others.
ghost use Rattle.std.specs.Prelude.{◌≡◌, ◌<◌, length, drop};
ghost use Rattle.layout_text.specs.Workings.Reader.{kind_of, first_kind, other};

pub const SPACE: u64 = 10;

pub const NEWLINE: u64 = 11;

pub const MINUS: u64 = 12;

// a byte that the form does not have, or no byte
pub const OTHER: u64 = 13;

// The kind of a byte.
#[tactic(auto, unfolding(crate::specs::Workings::Reader::kind_of))]
pub fn kind(b: u8) -> u64
    ensures { result ≡ kind_of b }
{
    match b {
        b'0'..=b'9' => wide(b) - 48,
        b'-' => MINUS,
        b' ' => SPACE,
        b'\n' => NEWLINE,
        _ => OTHER,
    }
}

// The kind of byte i; OTHER past the end.
pub fn kind_at(text: &[u8], i: usize) -> u64
    ensures value { result ≡ first_kind (drop i text.now) }
    ensures i_in_bounds { result < other → i < length text.now }
{
    if text.len() <= i {
        return OTHER;
    }
    kind(text[i])
}

fn wide(b: u8) -> u64
    ensures { result ≡ b }
{
    b as u64
}
