// What a run of bytes is: a mark, a number, or a name with a number.
ghost use Rattle.std.specs.Prelude.{◌≡◌};
ghost use Rattle.base.specs.Lists.{same};
ghost use Rattle.text_grammar.specs.Tokens.{marks, spelling, named_token, token_of};
ghost use Rattle.text_tokens.specs.First.{mark_among, mark_from, number_in};

use crate::runs::is_digit;
use text_grammar::tokens::{Mark, Token};

// The bytes that a mark is spelled with.
#[tactic(auto, unfolding(text_grammar::specs::Tokens::spelling))]
fn spelling(m: Mark) -> &'static [u8]
    ensures { result.now ≡ spelling m }
{
    match m {
        Mark::StartWord => b"start",
        Mark::WaitWord => b"wait",
        Mark::MaintainWord => b"maintain",
        Mark::RepeatWord => b"repeat",
        Mark::IfWord => b"if",
        Mark::ThenWord => b"then",
        Mark::ElseWord => b"else",
        Mark::EqualSign => b"=",
        Mark::DiffersSign => b"!=",
        Mark::AtLeastSign => b">=",
        Mark::BelowSign => b"<",
        Mark::Semicolon => b";",
        Mark::Comma => b",",
        Mark::Opening => b"(",
        Mark::Closing => b")",
        Mark::Colon => b":",
    }
}

// Whether a run is spelled as a mark.
#[tactic(auto, using(crate::proofs::Classes::same_bytes))]
pub(crate) fn spells(run: &[u8], m: Mark) -> bool
    ensures { result ≡ same run.now (spelling m) }
{
    run == spelling(m)
}

// The mark that begins with a byte, if one does: no two begin with the same.
#[tactic(auto, unfolding(crate::specs::First::mark_from, text_grammar::specs::Tokens::spelling))]
fn mark_from(first: u8) -> Option<Mark>
    ensures { result ≡ mark_from first }
{
    match first {
        b's' => Some(Mark::StartWord),
        b'w' => Some(Mark::WaitWord),
        b'm' => Some(Mark::MaintainWord),
        b'r' => Some(Mark::RepeatWord),
        b'i' => Some(Mark::IfWord),
        b't' => Some(Mark::ThenWord),
        b'e' => Some(Mark::ElseWord),
        b'=' => Some(Mark::EqualSign),
        b'!' => Some(Mark::DiffersSign),
        b'>' => Some(Mark::AtLeastSign),
        b'<' => Some(Mark::BelowSign),
        b';' => Some(Mark::Semicolon),
        b',' => Some(Mark::Comma),
        b'(' => Some(Mark::Opening),
        b')' => Some(Mark::Closing),
        b':' => Some(Mark::Colon),
        _ => None,
    }
}

// The mark that a run is spelled as, if it is one.
#[tactic(auto, using(crate::proofs::Marks::mark_of_none, crate::proofs::Marks::mark_unbegun))]
fn mark_in(run: &[u8]) -> Option<Mark>
    ensures { result ≡ mark_among marks run.now }
{
    let [first, ..] = run else {
        return None;
    };
    let mark = mark_from(*first)?;
    spells(run, mark).then_some(mark)
}

// The number that a run is, if it is one: up to the largest of 16 bits, with no leading zero.
#[tactic(auto, using(crate::proofs::Decimals::number_none, crate::proofs::Decimals::number_leading))]
fn number_in(run: &[u8]) -> Option<u16>
    ensures { result ≡ number_in run.now }
{
    let [first, ..] = run else {
        return None;
    };
    // One test by `&`: by `&&` the proof does not know on the way on that it failed.
    if (*first == b'0') & (1 < run.len()) {
        return None;
    }
    let mut x: u16 = 0;
    for d in run {
        if !is_digit(*d) {
            return None;
        }
        x = x.checked_mul(10)?.checked_add(u16::from(*d - b'0'))?;
    }
    Some(x)
}

// A run that is `v` or `c` with a number.
#[tactic(auto, using(crate::proofs::Classes::named_empty, crate::proofs::Classes::named_variable, crate::proofs::Classes::named_clock, crate::proofs::Classes::named_unnumbered, crate::proofs::Classes::named_other))]
fn named_token(run: &[u8]) -> Token
    ensures { result ≡ named_token run.now }
{
    let [first, digits @ ..] = run else {
        return Token::Unknown;
    };
    match (*first, number_in(digits)) {
        (b'v', Some(n)) => Token::Variable(n),
        (b'c', Some(n)) => Token::Clock(n),
        _ => Token::Unknown,
    }
}

// The token that a run is spelled as.
#[tactic(auto, using(crate::proofs::Classes::token_mark, crate::proofs::Classes::token_number, crate::proofs::Classes::token_name))]
pub(crate) fn token_of(run: &[u8]) -> Token
    ensures { result ≡ token_of run.now }
{
    if let Some(m) = mark_in(run) {
        return Token::Mark(m);
    }
    match number_in(run) {
        Some(n) => Token::Number(n),
        None => named_token(run),
    }
}
