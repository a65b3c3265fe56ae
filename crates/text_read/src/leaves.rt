// Reads what has no step inside: marks, numbers, conditions and leaves.
ghost use Rattle.std.specs.Prelude.{◌≡◌, ◌≤◌, length, Some};
ghost use Rattle.std.specs.Bool.{Decides};
ghost use Rattle.meaning.specs.Kinds.{number_of, test_number};
ghost use Rattle.text_grammar.specs.declared.tokens.Token.TheVariants.{Mark as mark};
ghost use Rattle.text_grammar.specs.Texts.{max_text_length};
ghost use Rattle.text_grammar.specs.Lexer.{tokens_from};
ghost use Rattle.text_grammar.specs.Parser.{parse_number};
ghost use Rattle.text_stops.specs.Places.{cut_at};
ghost use Rattle.text_tokens.specs.First.{first_token, later_tokens, Passed};
ghost use Rattle.text_read.specs.Entries.{value_entries, test_entries, condition_entries, goal_entries, start_entries};
ghost use Rattle.text_read.specs.Reading.{next_token, number_or_stop, Does, Passes, Room, Moves, Bracketed, place_of, parts_of};

use crate::{Reached, Read, SignTest, Stop};
use meaning::kinds::{Kind, Test};
use text_grammar::tokens::{Mark, Token};
use text_parts::{clamped, put_part};
use text_tokens::{end_at, stands, token_at};

// The first token from place e on, by whose kind a reader goes: no sign where there is none.
#[tactic(auto, unfolding(crate::specs::Reading::next_token))]
pub(crate) fn next_token(t: &[u8], e: u16) -> Token
    requires { e ≤ length t.now }
    ensures { result ≡ next_token (tokens_from t.now e) }
{
    token_at(t, usize::from(e)).unwrap_or(Token::Unknown)
}

// The place after it.
pub(crate) fn after(t: &[u8], e: u16) -> u16
    requires t_len_bound { length t.now ≤ max_text_length }
    requires e_in_bounds { e ≤ length t.now }
    ensures { Passed t.now e result }
{
    end_at(t, usize::from(e)) as u16
}

// Whether it is a mark. In line, as `stands` is.
#[inline(always)]
pub(crate) fn stands_at(t: &[u8], e: u16, m: Mark) -> bool
    requires { e ≤ length t.now }
    ensures { Decides result (first_token (tokens_from t.now e) ≡ Some (mark m)) }
{
    stands(t, usize::from(e), m)
}

// The number that must stand next.
pub(crate) fn number_from(t: &[u8], e: u16) -> Result<u16, Stop>
    requires { e ≤ length t.now }
    ensures { result ≡ number_or_stop e (parse_number (tokens_from t.now e)) }
{
    match next_token(t, e) {
        Token::Number(n) => Ok(n),
        _ => Err(Stop { place: e }),
    }
}

// Passes the mark that must stand next.
pub(crate) fn expect(t: &[u8], at: Reached, m: Mark) -> Read
    requires { Room t.now at.place at.parts }
    ensures passes { Passes t.now at m result }
    ensures moves { Moves t.now at.place at.parts (place_of result) (parts_of result) }
{
    if !stands_at(t, at.place, m) {
        return Err(Stop { place: at.place });
    }
    Ok(Reached {
        place: after(t, at.place),
        ..at
    })
}

// Reads the value that must stand next, and stores a part with it.
fn valued(t: &[u8], at: Reached, parts: &mut [u8], kind: Kind, test: Test, subject: u16) -> Read
    requires { Room t.now at.place at.parts }
    ensures does { Does t.now parts.old at.parts result parts.new (value_entries (number_of kind) (test_number test) subject (tokens_from t.now at.place)) }
    ensures moves { Moves t.now at.place at.parts (place_of result) (parts_of result) }
{
    let value = number_from(t, at.place)?;
    put_part(
        parts,
        at.parts,
        kind.into(),
        test.into(),
        clamped(subject),
        value,
    );
    Ok(Reached {
        place: after(t, at.place),
        parts: at.parts + 1,
    })
}

// Reads one of two signs, and the value that a variable or clock is tested against.
fn tested(
    t: &[u8],
    at: Reached,
    parts: &mut [u8],
    kind: Kind,
    subject: u16,
    first: SignTest,
    second: SignTest,
) -> Read
    requires { Room t.now at.place at.parts }
    ensures does { Does t.now parts.old at.parts result parts.new (test_entries (number_of kind) subject first.sign (test_number first.test) second.sign (test_number second.test) (tokens_from t.now at.place)) }
    ensures moves { Moves t.now at.place at.parts (place_of result) (parts_of result) }
{
    let next = Reached {
        place: after(t, at.place),
        ..at
    };
    if stands_at(t, at.place, first.sign) {
        return valued(t, next, parts, kind, first.test, subject);
    }
    if stands_at(t, at.place, second.sign) {
        return valued(t, next, parts, kind, second.test, subject);
    }
    Err(Stop { place: at.place })
}

// Reads a condition, and stores a part of a kind with it.
pub(crate) fn condition(t: &[u8], at: Reached, parts: &mut [u8], kind: Kind) -> Read
    requires { Room t.now at.place at.parts }
    ensures does { Does t.now parts.old at.parts result parts.new (condition_entries (number_of kind) (tokens_from t.now at.place)) }
    ensures moves { Moves t.now at.place at.parts (place_of result) (parts_of result) }
{
    let next = Reached {
        place: after(t, at.place),
        ..at
    };
    match next_token(t, at.place) {
        Token::Variable(v) => {
            let equals = SignTest {
                sign: Mark::EqualSign,
                test: Test::Equals,
            };
            let differs = SignTest {
                sign: Mark::DiffersSign,
                test: Test::Differs,
            };
            tested(t, next, parts, kind, v, equals, differs)
        }
        Token::Clock(c) => {
            let at_least = SignTest {
                sign: Mark::AtLeastSign,
                test: Test::AtLeast,
            };
            let below = SignTest {
                sign: Mark::BelowSign,
                test: Test::Below,
            };
            tested(t, next, parts, kind, c, at_least, below)
        }
        _ => Err(Stop { place: at.place }),
    }
}

// Reads a goal after its variable v.
pub(crate) fn goal(t: &[u8], at: Reached, parts: &mut [u8], v: u16) -> Read
    requires { Room t.now at.place at.parts }
    ensures does { Does t.now parts.old at.parts result parts.new (goal_entries v (tokens_from t.now at.place)) }
    ensures moves { Moves t.now at.place at.parts (place_of result) (parts_of result) }
{
    if !stands_at(t, at.place, Mark::EqualSign) {
        return Err(Stop { place: at.place });
    }
    let next = Reached {
        place: after(t, at.place),
        ..at
    };
    valued(t, next, parts, Kind::Goal, Test::Untested, v)
}

// Reads the clock that is started.
pub(crate) fn start(t: &[u8], at: Reached, parts: &mut [u8]) -> Read
    requires { Room t.now at.place at.parts }
    ensures does { Does t.now parts.old at.parts result parts.new (start_entries (tokens_from t.now at.place)) }
    ensures moves { Moves t.now at.place at.parts (place_of result) (parts_of result) }
{
    let Token::Clock(c) = next_token(t, at.place) else {
        return Err(Stop { place: at.place });
    };
    put_part(parts, at.parts, Kind::Start.into(), 0, clamped(c), 0);
    Ok(Reached {
        place: after(t, at.place),
        parts: at.parts + 1,
    })
}

// How many opening brackets stand together, and the place after them.
#[derive(Clone, Copy, PartialEq, Eq)]
pub struct Opened {
    pub count: u16,
    pub place: u16,
}

pub(crate) fn brackets(t: &[u8], from: u16) -> Opened
    requires t_len_bound { length t.now ≤ max_text_length }
    requires from_in_bounds { from ≤ length t.now }
    requires from_value { cut_at t.now from ≡ 0 }
    ensures { Bracketed t.now from result.count result.place }
{
    let mut place = from;
    let mut count: u16 = 0;
    while stands_at(t, place, Mark::Opening) {
        place = after(t, place);
        count += 1;
    }
    Opened { count, place }
}
