// Reads one line of a list of calls: `begin HEX`, `offer TIME`, `offer TIME LENGTH` or `settle HEX`.
#![tactic(auto)]

pub mod pieces;

ghost use Rattle.std.specs.Prelude.{◌≡◌};
ghost use Rattle.std.proofs.lemmas.List.Edits.{sets};
ghost use Rattle.desk_calls.specs.Lines.{passed_over, offer_with, call_by_word, line_of, bytes_after, bytes_of};

use desk_parse::decimal::numeral;
use desk_parse::hexadecimal::read_pairs;
use desk_parse::{split_word, trimmed};

// The words that ask for a call.
const BEGIN: &[u8] = b"begin";

const OFFER: &[u8] = b"offer";

const SETTLE: &[u8] = b"settle";

// What a line says. `Passed` is a line with no word, or a comment. `Begin` and `Settle` have the number of bytes of
// the estimate, which are stored in a buffer. `Offer` has a time, `OfferInto` a time and the goal buffer's length. A
// line that is no call is one of these, since it is answered and reported as the others are.
#[derive(Clone, Copy, PartialEq, Eq)]
pub enum Line {
    Passed,
    Begin(usize),
    Offer(u32),
    OfferInto(u32, u32),
    Settle(usize),
    NotACall,
}

// Whether a line with this first word is passed over.
fn passed_over(word: &[u8]) -> bool
    ensures { result ≡ passed_over word.now }
{
    matches!(word, [] | [b'#', ..])
}

// What a line with the word `offer` asks for: after it stand a time, and a length or nothing.
#[tactic(auto, unfolding(crate::specs::Lines::offer_with), using(crate::proofs::Calling::none_left, crate::proofs::Calling::some_left))]
fn offer_with(s: &[u8]) -> Option<Line>
    ensures { result ≡ offer_with s.now }
{
    let (word, rest) = split_word(trimmed(s));
    let time = numeral(word)?;
    let second = trimmed(rest);
    if second.is_empty() {
        return Some(Line::Offer(time));
    }
    let (word, rest) = split_word(second);
    let length = numeral(word)?;
    trimmed(rest)
        .is_empty()
        .then_some(Line::OfferInto(time, length))
}

// What a line asks for, by its first word and what stands after it. The bytes of an estimate are stored in `bytes`.
#[tactic(auto, unfolding(crate::specs::Lines::call_by_word, crate::specs::Lines::bytes_after), using(base::proofs::Lists::pointwise_same, crate::proofs::Calling::offer_apart))]
fn call_by_word(word: &[u8], rest: &[u8], bytes: &mut [u8]) -> Option<Line>
    ensures value { result ≡ call_by_word word.now rest.now }
    ensures bytes_after { bytes.new ≡ sets bytes.old 0 (bytes_after word.now rest.now) }
{
    if word == BEGIN {
        return read_pairs(rest, bytes).map(Line::Begin);
    }
    if word == OFFER {
        return offer_with(rest);
    }
    if word == SETTLE {
        return read_pairs(rest, bytes).map(Line::Settle);
    }
    None
}

// Reads a line without its line feed, and stores the bytes of its estimate at the beginning of `bytes`. A buffer as
// long as the line has room for them.
#[tactic(auto, unfolding(crate::specs::Lines::line_of, crate::specs::Lines::line_by_word, crate::specs::Lines::bytes_of, crate::specs::Lines::bytes_after), using(crate::proofs::Calling::passed_words))]
pub fn read_line(line: &[u8], bytes: &mut [u8]) -> Line
    ensures value { result ≡ line_of line.now }
    ensures bytes_after { bytes.new ≡ sets bytes.old 0 (bytes_of line.now) }
{
    let (word, rest) = split_word(trimmed(line));
    if passed_over(word) {
        return Line::Passed;
    }
    call_by_word(word, rest, bytes).unwrap_or(Line::NotACall)
}
