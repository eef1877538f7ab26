// The line script: which call a line is, with its arguments as numbers, or why it is none.
#![tactic(auto)]

mod calls;
mod lines;

pub use calls::CallName;
pub use lines::parse;
use script_words::Kind;

// The bytes that a line may have.
pub const MAX_LINE: usize = 4095;

// A line's call and its arguments, in their order, with zeros after them: there is no heap for a list
// of its own length. A name's argument is its length. Whether the word `lent` stands before it.
#[derive(Clone, Copy, PartialEq, Eq, Debug)]
pub struct Call {
    pub name: CallName,
    pub args: [u64; 9],
    pub is_lent: bool,
}

// Why a line is bad: the first thing that is wrong with it, from left to right. Of an argument that
// does not fit it says the place, from 1 on, and the kind.
#[derive(Clone, Copy, PartialEq, Eq, Debug)]
pub enum Fault {
    LongLine,
    ControlByte,
    UnknownWord,
    NotLent(CallName),
    TooFew(CallName),
    TooMany(CallName),
    WrongArgument(CallName, usize, Kind),
}
