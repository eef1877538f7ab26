// Bytes as words and numbers: where a line's words begin and end, and what a number in decimal or
// hexadecimal is.
#![tactic(auto)]

mod numbers;

ghost use Rattle.std.specs.Prelude.{◌≡◌};
ghost use Rattle.script_words.specs.Word.{split, word_at, second};

pub use numbers::{field, number};

// What an argument is: a flag, a number of so many bits, or a name.
#[derive(Clone, Copy, PartialEq, Eq, Debug)]
pub enum Kind {
    Flag,
    U8,
    U16,
    U32,
    U64,
    Name,
}

// The word of a line at this place, from 0 on. Empty where there is none.
pub fn word_at(line: &[u8], place: usize) -> &[u8]
    ensures { result.now ≡ word_at place (split line.now) }
{
    line.split(|byte| *byte == b' ')
        .nth(place)
        .unwrap_or_default()
}

// The word after the first: the name in a line of `start-model`. Empty where there is none.
#[tactic(auto, using(crate::proofs::Words::second_at))]
pub fn second_word(line: &[u8]) -> &[u8]
    ensures { result.now ≡ second (split line.now) }
{
    word_at(line, 1)
}
