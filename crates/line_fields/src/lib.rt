// One field of a line of the text input: where it ends, and what it is. Nothing here knows a heading or a line.
#![tactic(auto)]

ghost use Rattle.std.specs.Prelude.{◌≡◌, length};
ghost use Rattle.line_fields.specs.Fields.{field_of, mark_of, rule_or_word, is_number, is_dash, is_letter, is_rule, is_empty, is_either, value_in, rule_in};
ghost use Rattle.line_fields.specs.Inner.{before, held_field};

use decimal::NumberError;
use types::Deduction;

// What a field is, as the program holds it: a number above 4,294,967,295 counts as that one, which is outside every range too. A word
// is a field of one byte or more that is nothing else, not the word of a rule either.
#[derive(Clone, Copy, Debug, PartialEq, Eq)]
pub enum Field {
    Number(u32),
    Letter(u8),
    Dash,
    Word,
    Empty,
    Rule(Deduction),
}

// How many bytes stand before the first `b`; all of them if there is none.
pub fn find(s: &[u8], b: u8) -> usize
    ensures { result ≡ length (before b s.now) }
{
    s.iter().position(|&x| x == b).unwrap_or(s.len())
}

// What a field of one byte is that is no number.
fn mark_of(b: u8) -> Field
    ensures { result ≡ mark_of b }
{
    match b {
        b'-' => Field::Dash,
        b'A'..=b'Z' => Field::Letter(b),
        _ => Field::Word,
    }
}

// The rule of deduction whose word a field of some bytes is, or a word that is none.
#[tactic(auto, using(decimal::proofs::Texts::same_pointwise), unfolding(crate::specs::Fields::rule_or_word, crate::specs::Fields::rule_word))]
fn rule_or_word(s: &[u8]) -> Field
    ensures { result ≡ rule_or_word s.now }
{
    if s == b"write-first".as_slice() {
        return Field::Rule(Deduction::WriteFirst);
    }
    if s == b"load-first".as_slice() {
        return Field::Rule(Deduction::LoadFirst);
    }
    Field::Word
}

#[tactic(auto, unfolding(decimal::specs::InnerReads::read_of, crate::specs::Fields::field_of, crate::specs::Fields::rule_or_word))]
pub fn field_of(s: &[u8]) -> Field
    ensures { result ≡ held_field (field_of s.now) }
{
    match decimal::read(s, u64::from(u32::MAX)) {
        Ok(v) => Field::Number(v as u32),
        Err(NumberError::OutOfRange) => Field::Number(u32::MAX),
        Err(NumberError::Malformed) => match s {
            [] => Field::Empty,
            [b] => mark_of(*b),
            _ => rule_or_word(s),
        },
    }
}

impl Field {
    pub fn is_number(self) -> bool
        ensures { result ≡ is_number self }
    {
        matches!(self, Field::Number(_))
    }

    pub fn is_letter(self) -> bool
        ensures { result ≡ is_letter self }
    {
        matches!(self, Field::Letter(_))
    }

    pub fn is_dash(self) -> bool
        ensures { result ≡ is_dash self }
    {
        matches!(self, Field::Dash)
    }

    // Whether the field has no byte, as between two spaces: no line has such a one.
    pub fn is_empty(self) -> bool
        ensures { result ≡ is_empty self }
    {
        matches!(self, Field::Empty)
    }

    pub fn is_rule(self) -> bool
        ensures { result ≡ is_rule self }
    {
        matches!(self, Field::Rule(_))
    }

    // Whether the field is a number or `-`.
    pub fn is_either(self) -> bool
        ensures { result ≡ is_either self }
    {
        matches!(self, Field::Number(_) | Field::Dash)
    }

    // The rule whose word the field is; write-first if it is none's.
    pub fn rule(self) -> Deduction
        ensures { result ≡ rule_in self }
    {
        match self {
            Field::Rule(word) => word,
            _ => Deduction::WriteFirst,
        }
    }

    // The number that the field is, or the code of its letter; 0 if it is neither.
    pub fn value(self) -> u32
        ensures { result ≡ value_in self }
    {
        match self {
            Field::Number(v) => v,
            Field::Letter(b) => u32::from(b),
            _ => 0,
        }
    }
}
