//! Indices, and where their bits stand in the four layers.
ghost use Rattle.std.specs.Prelude.{◌≡◌, ◌≢◌, ℕ, ◌/◌, ◌%◌, ◌^◌, ◌<◌};
ghost use Rattle.hibitset_sets.specs.Bits.{TakesBit};

/// The number of an entity or of another thing that a set tells apart.
pub type Index = u32;

/// A word has 2 ^ `BITS` bits.
pub const BITS: usize = 6;

/// How many layers of words a set has.
pub const LAYERS: usize = 4;

/// Indices in a set have this many bits.
pub const MAX: usize = BITS * LAYERS;

/// Each index in a set is below this number.
pub const MAX_EID: usize = 16_777_216;

/// Layer 0 has one bit for 2 ^ `SHIFT0` indices.
pub const SHIFT0: usize = 0;

/// Layer 1 has one bit for 2 ^ `SHIFT1` indices.
pub const SHIFT1: usize = SHIFT0 + BITS;

/// Layer 2 has one bit for 2 ^ `SHIFT2` indices.
pub const SHIFT2: usize = SHIFT1 + BITS;

/// Layer 3 has one bit for 2 ^ `SHIFT3` indices.
pub const SHIFT3: usize = SHIFT2 + BITS;

/// Where the bit of an index stands, in the layer that has one bit for 2 ^ `shift` indices.
pub trait Row {
    ghost number: { Self → ℕ };

    /// The bit's place in its word, below 64.
    fn row(self, shift: usize) -> usize
        requires { shift < 32 }
        ensures { result ≡ number self / 2 ^ shift % 64 };

    /// The bit's number in its layer.
    fn offset(self, shift: usize) -> usize
        requires { shift < 32 }
        ensures { result ≡ number self / 2 ^ shift };

    /// The word of which the bit alone is set.
    fn mask(self, shift: usize) -> u64
        requires { shift < 32 }
        ensures { result ≡ 2 ^ (number self / 2 ^ shift % 64) };
}

impl Row for Index {
    ghost number = { λ index. index };

    fn row(self, shift: usize) -> usize {
        ((self >> shift) as usize) & 63
    }

    fn offset(self, shift: usize) -> usize {
        (self >> shift) as usize
    }

    fn mask(self, shift: usize) -> u64 {
        1u64 << self.row(shift)
    }
}

/// The numbers of the words of layers 0, 1 and 2 in which the bits of `bit` stand.
pub fn offsets(bit: Index) -> (usize, usize, usize)
    ensures first { result.0 ≡ bit / 64 }
    ensures second { result.1 ≡ bit / 4096 }
    ensures third { result.2 ≡ bit / 262144 }
{
    (bit.offset(SHIFT1), bit.offset(SHIFT2), bit.offset(SHIFT3))
}

/// The place of the lowest bit of a word that has one, and the word without it.
#[inline(always)]
pub fn take_bit(word: u64) -> (u32, u64)
    requires { word ≢ 0 }
    ensures { TakesBit word result.0 result.1 }
{
    let place = word.trailing_zeros();
    (place, word & !(1 << place))
}
