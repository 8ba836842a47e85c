// The types that the definitions of specs/ share with the code above. It has no functions.
#![tactic(auto)]

use layout::Refusal;

// The longest rule text.
pub const TEXT_BYTES: usize = 16384;

// A name slot, and the longest name; the slots of symbols, of words, and of both.
pub const SLOT_BYTES: usize = 25;

pub const NAME_BYTES: usize = 24;

pub const SYMBOLS_BYTES: usize = 800;

pub const WORDS_BYTES: usize = 400;

pub const NAMES_BYTES: usize = 1200;

// Why a text is refused, and where in it: 0 where it is too long, or an area too short.
#[derive(Clone, Copy, Debug, PartialEq, Eq)]
pub struct TextError {
    pub refusal: Refusal,
    pub place: usize,
}
