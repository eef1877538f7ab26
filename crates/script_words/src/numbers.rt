// A word as a number.
ghost use Rattle.std.specs.Prelude.{◌≡◌, ◌≤◌};
ghost use Rattle.script_words.specs.Number.{digits_of, number_of, kind_of, limit_of, field_of};
ghost use Rattle.script_words.specs.declared.Kind.{Kind};

use crate::Kind;

// The kind that a letter stands for: `f` a flag, `b` 8 bits, `i` 16, `w` 32, `n` a name, and any other 64.
impl From<u8> for Kind {
    ghost from_gives = { λ letter kind. kind ≡ kind_of letter };

    #[tactic(auto, unfolding(crate::specs::Number::kind_of))]
    fn from(letter: u8) -> Kind {
        match letter {
            b'f' => Kind::Flag,
            b'b' => Kind::U8,
            b'i' => Kind::U16,
            b'w' => Kind::U32,
            b'n' => Kind::Name,
            _ => Kind::U64,
        }
    }
}

impl Kind {
    // The largest number of a field of this kind.
    #[tactic(auto, unfolding(crate::specs::Number::limit_of))]
    fn limit(self) -> u64
        ensures { result ≡ limit_of self }
    {
        match self {
            Kind::Flag => 1,
            Kind::U8 => 0xff,
            Kind::U16 => 0xffff,
            Kind::U32 => 0xffff_ffff,
            Kind::U64 | Kind::Name => u64::MAX,
        }
    }
}

// The number that digits of this base make.
#[tactic(auto, using(crate::proofs::Digits::digits_rules))]
fn digits(word: &[u8], base: u32) -> Option<u64>
    requires low { 2 ≤ base }
    requires high { base ≤ 16 }
    ensures { result ≡ digits_of base word.now }
{
    if word.is_empty() {
        return None;
    }
    let mut value: u64 = 0;
    for byte in word {
        let digit = char::from(*byte).to_digit(base)?;
        value = value
            .checked_mul(u64::from(base))?
            .checked_add(u64::from(digit))?;
    }
    Some(value)
}

// A number in decimal, or in hexadecimal after `0x`.
#[tactic(auto, using(crate::proofs::Fields::by_prefix))]
pub fn number(word: &[u8]) -> Option<u64>
    ensures { result ≡ number_of word.now }
{
    match word.strip_prefix(b"0x") {
        Some(rest) => digits(rest, 16),
        None => digits(word, 10),
    }
}

// An argument of this kind, or of the kind of this letter: a name's length, or a number within its field.
#[tactic(auto, using(crate::proofs::Fields::field_rules))]
pub fn field<K: Into<Kind>>(kind: K, word: &[u8]) -> Option<u64>
    ensures { (of_kind : Kind) × K.converts kind of_kind × (result ≡ field_of of_kind word.now) }
{
    let kind: Kind = kind.into();
    match kind {
        Kind::Name => (!word.is_empty()).then_some(word.len() as u64),
        _ => number(word).filter(|value| *value <= kind.limit()),
    }
}
