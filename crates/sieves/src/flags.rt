// Flags of a block, which is a few consecutive indices of the second path: 1 if a sieve leaves the pair, 0 if it takes it away.
ghost use Rattle.std.specs.Prelude.{◌≡◌, ◌≤◌, ◌<◌, ◌-◌, length};
ghost use Rattle.boxes.specs.Workings.Next;
ghost use Rattle.sieves.specs.Workings.Flags;

// how many indices a block has at most
pub const BLOCK: usize = 64;

// The flag of a pair that is left, or not.
pub fn flag(left: bool) -> u64
    ensures { result ≡ Flags.flag left }
{
    u64::from(left)
}

// The first index from j on and before `end` whose flag is up; `end` if there is none. The flags are those from `from` on.
pub fn next_left(flags: &[u64], from: usize, j: usize, end: usize) -> usize
    requires { (from ≤ j) × (j ≤ end) × (end - from ≤ length flags.now) }
    ensures { result ≡ Next.first (Flags.is_up flags.now from) j end }
{
    for k in j..end {
        if 0 < flags[k - from] {
            return k;
        }
    }
    end
}

// Puts every flag of the block up: nothing is taken away.
pub fn leave_all(from: usize, to: usize, flags: &mut [u64])
    requires { (from ≤ to) × (to - from ≤ length flags.old) }
    ensures { flags.new ≡ Flags.flags Flags.every from to flags.old }
{
    flags[..to - from].fill(flag(true));
}
