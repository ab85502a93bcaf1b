//! The middle bit of a word.
ghost use Rattle.std.specs.Prelude.{◌≡◌, ◌+◌, ◌/◌, ◌<◌, MatchOption};
ghost use Rattle.hibitset_sets.specs.Bits.{has_bit};
ghost use Rattle.hibitset_sets.specs.Average.{ones_below, IsAverage};

/// The place of the set bit that has half of the set bits, rounded up, below it.
///
/// None of a word with fewer than two bits set. The rule is this project's own.
pub fn average_ones(n: u64) -> Option<usize>
    ensures { MatchOption result (ones_below n 64 < 2) (IsAverage n) }
{
    let mut ones: usize = 0;
    for place in 0..64usize {
        if is_set(n, place) {
            ones += 1;
        }
    }
    let half = (ones + 1) / 2;
    let mut below: usize = 0;
    for at in 0..64usize {
        if is_set(n, at) {
            if below == half {
                return Some(at);
            }
            below += 1;
        }
    }
    None
}

/// Whether the bit at `place` is set.
fn is_set(n: u64, place: usize) -> bool
    requires { place < 64 }
    ensures { result ≡ has_bit n place }
{
    n & (1 << place) != 0
}
