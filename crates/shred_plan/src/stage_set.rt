//! Sets of stages, one bit a stage.
ghost use Rattle.std.specs.Prelude.{◌≡◌, ℕ, ◌+◌, ◌*◌, ◌/◌, ◌<◌, ◌≤◌, ◌==◌, ◌||◌, ◌&&◌, not, true, false, length};
ghost use Rattle.std.specs.Prelude.{slice_index, OnOk};
ghost use Rattle.std.specs.Int.{bit_at};

use std::alloc::{AllocError, Global};

/// How many stages a word has.
const WORD_STAGES: usize = 64;

/// The bits of each sixteen numbers of a word.
const SIXTEENS: [u64; 4] = [0xFFFF, 0xFFFF_0000, 0xFFFF_0000_0000, 0xFFFF_0000_0000_0000];

/// A set of stages, or of other numbers, in words of 64 bits.
#[derive(Drop)]
pub(crate) struct StageSet {
    words: Vec<u64>,
}

impl StageSet {
    ghost use Rattle.shred_plan.specs.Index.{is_in, has_stage};
    ghost use Rattle.shred_plan.specs.Seats.{HasTwo};

    /// A set without stages, which takes no memory.
    pub(crate) fn new(alloc: Global) -> StageSet
        ensures { (place : ℕ) → has_stage result place ≡ false }
    {
        StageSet {
            words: Vec::new(alloc),
        }
    }

    /// Whether a stage is in the set.
    pub(crate) fn contains(&self, stage: usize) -> bool
        ensures { result ≡ has_stage self.now stage }
    {
        (self.word(stage / WORD_STAGES) >> (stage % WORD_STAGES)) & 1 == 1
    }

    /// A word, or 0 past the words.
    fn word(&self, place: usize) -> u64
        ensures { result ≡ slice_index self.now.words.items place }
    {
        if place < self.words.len() {
            self.words[place]
        } else {
            0
        }
    }

    /// Whether two of the sixteen numbers of a stage are in the set.
    pub(crate) fn has_two(&self, stage: usize) -> bool
        ensures { result ≡ true → HasTwo self.now stage }
    {
        has_two_bits(self.sixteen(stage))
    }

    /// The bits of the sixteen numbers of a stage, where they stand in their word.
    fn sixteen(&self, stage: usize) -> u64
        ensures of { (bit : ℕ) → bit_at result bit ≡ 1 → (64 * (stage / 4) + bit) / 16 ≡ stage }
        ensures is_in { (bit : ℕ) → bit_at result bit ≡ 1 → has_stage self.now (64 * (stage / 4) + bit) ≡ true }
    {
        self.word(stage / 4) & SIXTEENS[stage % 4]
    }

    /// Puts a stage in.
    ///
    /// Errors: want of memory.
    pub(crate) fn insert(&mut self, stage: usize) -> Result<(), AllocError>
        ensures { OnOk result ((place : ℕ) → has_stage self.new place
            ≡ (has_stage self.old place || (stage == place))) }
    {
        self.grow(stage / WORD_STAGES + 1)?;
        self.words[stage / WORD_STAGES] |= 1 << (stage % WORD_STAGES);
        Ok(())
    }

    /// Takes a stage out.
    pub(crate) fn remove(&mut self, stage: usize)
        ensures { (place : ℕ) → has_stage self.new place ≡ (has_stage self.old place && not (stage == place)) }
    {
        if stage / WORD_STAGES < self.words.len() {
            self.words[stage / WORD_STAGES] &= !(1 << (stage % WORD_STAGES));
        }
    }

    /// Makes the words at least this many, by words that are zero.
    ///
    /// Errors: want of memory.
    fn grow(&mut self, count: usize) -> Result<(), AllocError>
        ensures ok { OnOk result (count ≤ length self.new.words.items) }
        ensures same { OnOk result ((place : ℕ) → slice_index self.new.words.items place
            ≡ slice_index self.old.words.items place) }
    {
        if self.words.len() < count {
            self.words.resize(count, 0)?;
        }
        Ok(())
    }

    /// Puts the stages of another set in.
    ///
    /// Errors: want of memory.
    pub(crate) fn unite(&mut self, other: &StageSet) -> Result<(), AllocError>
        ensures { OnOk result ((place : ℕ) → has_stage self.new place
            ≡ (has_stage self.old place || has_stage other.now place)) }
    {
        self.grow(other.words.len())?;
        for (place, word) in other.words.iter().enumerate() {
            self.words[place] |= *word;
        }
        Ok(())
    }

    /// The first stage from one on that isn't in the set, if there is one before the end; else the end.
    pub(crate) fn first_outside(&self, from: usize, end: usize) -> usize
        requires { from ≤ end }
        ensures from { from ≤ result }
        ensures end { result ≤ end }
        ensures passed { (place : ℕ) → from ≤ place → place < result → has_stage self.now place ≡ true }
        ensures found { result < end → has_stage self.now result ≡ false }
    {
        let mut stage = from;
        while stage < end {
            let place = stage % WORD_STAGES;
            let bit = first_bit(!self.word(stage / WORD_STAGES), place);
            let next = end.min((stage - place).saturating_add(bit));
            if bit < WORD_STAGES {
                return next;
            }
            stage = next;
        }
        end
    }

    /// The first stage from one on that is in the set, if there is one before the end; else the end.
    pub(crate) fn first_inside(&self, from: usize, end: usize) -> usize
        requires { from ≤ end }
        ensures from { from ≤ result }
        ensures end { result ≤ end }
        ensures passed { (place : ℕ) → from ≤ place → place < result → has_stage self.now place ≡ false }
        ensures found { result < end → has_stage self.now result ≡ true }
    {
        let mut stage = from;
        while stage < end {
            let place = stage % WORD_STAGES;
            let bit = first_bit(self.word(stage / WORD_STAGES), place);
            let next = end.min((stage - place).saturating_add(bit));
            if bit < WORD_STAGES {
                return next;
            }
            stage = next;
        }
        end
    }
}

ghost use Rattle.shred_plan.specs.Seats.{HasTwoBits};

/// The first place from one on at which a word has a bit, or 64 where it has none.
fn first_bit(word: u64, from: usize) -> usize
    requires { from < 64 }
    ensures from { from ≤ result }
    ensures end { result ≤ 64 }
    ensures passed { (bit : ℕ) → from ≤ bit → bit < result → bit_at word bit ≡ 0 }
    ensures found { result < 64 → bit_at word result ≡ 1 }
{
    let rest = word >> from;
    if rest == 0 {
        WORD_STAGES
    } else {
        from + rest.trailing_zeros() as usize
    }
}

/// Whether a word has two bits.
fn has_two_bits(word: u64) -> bool
    ensures { result ≡ true → HasTwoBits word }
{
    if word == 0 {
        return false;
    }
    let low = word.trailing_zeros();
    word & !(1 << low) != 0
}
