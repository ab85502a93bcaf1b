//! How the state of a cell stands in its word.
ghost use Rattle.std.specs.Prelude.{◌≡◌, IfSome, option_map};
ghost use Rattle.counted_slot.specs.Counting.{IsTurn};
ghost use Rattle.shred.specs.Cells.{IsState, after};
ghost use Rattle.shred.specs.Words.{state_of_word, word_of_state, IsBorrow, Earns};

use crate::cells::cell_core::{State, Step, next_state};
use counted_slot::{ONE_READER, PRESENT, TAKEN};

/// Past the words that show a state with readers.
const END_OF_WORDS: u64 = 0x1_0000_0000;

/// The state that a word shows.
fn state_in(word: u64) -> State
    ensures value { result ≡ state_of_word word }
    ensures state { IsState result }
{
    if word >= END_OF_WORDS || word % ONE_READER != PRESENT {
        return State::Written;
    }
    match (word / ONE_READER) as u32 {
        0 => State::Free,
        readers => State::Read(readers),
    }
}

/// The word that shows a state.
fn word_of(state: State) -> u64
    ensures { result ≡ word_of_state state }
{
    match state {
        State::Free => PRESENT,
        State::Read(readers) => readers as u64 * ONE_READER + PRESENT,
        State::Written => TAKEN,
    }
}

/// The word after a borrow, or `None` where the borrow is refused in the state that the word shows.
pub(crate) fn word_after(word: u64, step: Step) -> Option<u64>
    requires borrow { IsBorrow step }
    ensures value { option_map state_of_word result ≡ after (state_of_word word) step }
    ensures turn { IfSome result (IsTurn word) }
    ensures earns { IfSome result (Earns step word) }
{
    let next = next_state(state_in(word), step)?;
    Some(word_of(next))
}
