// A line as a call, by the table of the calls.
ghost use Rattle.std.specs.Prelude.{◌≡◌};
ghost use Rattle.script_words.specs.Word.{split};
ghost use Rattle.script.specs.Line.{calls, call_of, call_in, parsed};

use crate::calls::{Row, row_of};
use crate::{Call, Fault, MAX_LINE};
use script_words::{field, word_at};

// The call that the words make, lent or not.
fn call_of(words: &[u8], is_lent: bool) -> Result<Call, Fault>
    ensures { result ≡ call_of is_lent calls (split words.now) }
{
    let Some(Row(_, name, kinds, lends)) = row_of(word_at(words, 0)) else {
        return Err(Fault::UnknownWord);
    };
    if is_lent && !lends {
        return Err(Fault::NotLent(name));
    }
    // by hand: `zip` does not say which of the two goes on
    let mut kinds = kinds.iter();
    let mut args = [0; 9];
    for (place, word) in words.split(|byte| *byte == b' ').skip(1).enumerate() {
        let Some(kind) = kinds.next() else {
            return Err(Fault::TooMany(name));
        };
        if place >= args.len() {
            return Err(Fault::TooMany(name));
        }
        let Some(value) = field(*kind, word) else {
            return Err(Fault::WrongArgument(name, place + 1, *kind));
        };
        args[place] = value;
    }
    match kinds.next() {
        Some(_) => Err(Fault::TooFew(name)),
        None => Ok(Call {
            name,
            args,
            is_lent,
        }),
    }
}

// The call of the whole line, lent where that word stands before it.
#[tactic(auto, using(crate::proofs::Parsing::by_word))]
fn call_in(line: &[u8]) -> Result<Call, Fault>
    ensures { result ≡ call_in line.now }
{
    match line.strip_prefix(b"lent ") {
        Some(rest) => call_of(rest, true),
        None => call_of(line, false),
    }
}

// A line as a call, or why it is none; nothing where it is passed over.
#[tactic(auto, using(crate::proofs::Parsing::parse_rules))]
pub fn parse(line: &[u8]) -> Result<Option<Call>, Fault>
    ensures { result ≡ parsed line.now }
{
    if line.len() > MAX_LINE {
        return Err(Fault::LongLine);
    }
    if line.is_empty() || line.starts_with(b"#") {
        return Ok(None);
    }
    if line.contains(&b'\t') || line.contains(&b'\r') {
        return Err(Fault::ControlByte);
    }
    call_in(line).map(Some)
}
