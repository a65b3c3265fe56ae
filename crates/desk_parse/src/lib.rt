// Reads words, which spaces separate, decimal numbers and pairs of hexadecimal digits.
#![tactic(auto)]

pub mod decimal;
pub mod hexadecimal;

ghost use Rattle.std.specs.Prelude.{◌≡◌};
ghost use Rattle.desk_parse.specs.Words.{is_space, is_other, leading, trimmed, word_of, rest_of};
ghost use Rattle.desk_parse.specs.Places.{place_of};

use base::at;

// The place of the first byte b from place `from` on and before place `to`, or `to` where there is
// none.
pub fn place_of(s: &[u8], b: u8, from: usize, to: usize) -> usize
    ensures { result ≡ place_of b s.now from to }
{
    (from..to).find(|i| at(s, *i) == b).unwrap_or(to)
}

// How many spaces a text begins with.
fn spaces(s: &[u8]) -> usize
    ensures { result ≡ leading is_space s.now }
{
    s.iter().position(|b| *b != b' ').unwrap_or(s.len())
}

// How many bytes a text has before its first space.
fn letters(s: &[u8]) -> usize
    ensures { result ≡ leading (is_other 32) s.now }
{
    s.iter().position(|b| *b == b' ').unwrap_or(s.len())
}

// The text after its leading spaces.
#[tactic(auto, using(crate::proofs::Leading::leading_within, crate::proofs::Leading::after_spaces))]
pub fn trimmed(s: &[u8]) -> &[u8]
    ensures { result.now ≡ trimmed s.now }
{
    &s[spaces(s)..]
}

// The word that a text begins with, and what stands after it.
#[tactic(auto, using(crate::proofs::Leading::leading_within, crate::proofs::Leading::first_word, crate::proofs::Leading::after_word))]
pub fn split_word(s: &[u8]) -> (&[u8], &[u8])
    ensures word { result.0.now ≡ word_of s.now }
    ensures rest { result.1.now ≡ rest_of s.now }
{
    s.split_at(letters(s))
}
