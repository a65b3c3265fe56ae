// The readers of steps, sequences and bodies, which call one another. Each stores the parts that it reads behind those
// that are stored.
ghost use Rattle.std.specs.Prelude.{◌≡◌};
ghost use Rattle.text_grammar.specs.Lexer.{tokens_from};
ghost use Rattle.text_read.specs.Entries.{step_entries, sequence_entries, body_entries, choice_entries, joining_mark, item_entries, rest_entries, tail_entries};
ghost use Rattle.text_read.specs.Reading.{Does, Continues, Room, Moves, place_of, parts_of};

use crate::leaves::{
    Opened, after, brackets, condition, expect, goal, next_token, stands_at, start,
};
use crate::{Reached, Read, Stop};
use meaning::kinds::Kind;
use text_grammar::tokens::{Mark, Token};
use text_parts::{Level, join, put_part};

// Reads a step.
#[cycle(readers)]
fn step(t: &[u8], from: Reached, parts: &mut [u8]) -> Read
    requires { Room t.now from.place from.parts }
    ensures does { Does t.now parts.old from.parts result parts.new (step_entries (tokens_from t.now from.place)) }
    ensures moves { Moves t.now from.place from.parts (place_of result) (parts_of result) }
{
    let next = Reached {
        place: after(t, from.place),
        ..from
    };
    match next_token(t, from.place) {
        Token::Variable(v) => goal(t, next, parts, v),
        // By itself: of a pattern in a pattern the proof does not know what the last arm leaves out.
        Token::Mark(mark) => match mark {
            Mark::StartWord => start(t, next, parts),
            Mark::WaitWord => condition(t, next, parts, Kind::Wait),
            Mark::MaintainWord => {
                let tested = condition(t, next, parts, Kind::Maintain)?;
                step(t, tested, parts)
            }
            Mark::RepeatWord => {
                put_part(parts, from.parts, Kind::Repeat.into(), 0, 0, 0);
                let inner = Reached {
                    parts: from.parts + 1,
                    ..next
                };
                step(t, inner, parts)
            }
            Mark::IfWord => choice(t, next, parts),
            Mark::Opening => {
                let inner = body(t, next, parts)?;
                expect(t, inner, Mark::Closing)
            }
            _ => Err(Stop { place: from.place }),
        },
        _ => Err(Stop { place: from.place }),
    }
}

// Reads the condition and the branches of an `if`.
#[cycle(readers)]
fn choice(t: &[u8], from: Reached, parts: &mut [u8]) -> Read
    requires { Room t.now from.place from.parts }
    ensures does { Does t.now parts.old from.parts result parts.new (choice_entries (tokens_from t.now from.place)) }
    ensures moves { Moves t.now from.place from.parts (place_of result) (parts_of result) }
{
    let tested = condition(t, from, parts, Kind::Choice)?;
    let first = expect(t, tested, Mark::ThenWord)?;
    let taken = step(t, first, parts)?;
    let second = expect(t, taken, Mark::ElseWord)?;
    step(t, second, parts)
}

// Reads a sequence.
#[cycle(readers)]
fn sequence(t: &[u8], from: Reached, parts: &mut [u8]) -> Read
    requires { Room t.now from.place from.parts }
    ensures does { Does t.now parts.old from.parts result parts.new (sequence_entries (tokens_from t.now from.place)) }
    ensures moves { Moves t.now from.place from.parts (place_of result) (parts_of result) }
{
    let first = step(t, from, parts)?;
    items(t, first, parts, from.parts, Level::Steps)
}

// The mark that joins.
#[tactic(auto, unfolding(crate::specs::Entries::joining_mark))]
fn joining_mark(level: Level) -> Mark
    ensures { result ≡ joining_mark level }
{
    match level {
        Level::Steps => Mark::Semicolon,
        Level::Sequences => Mark::Comma,
    }
}

// Reads one of those that are joined.
#[cycle(readers)]
fn item(t: &[u8], from: Reached, parts: &mut [u8], level: Level) -> Read
    requires { Room t.now from.place from.parts }
    ensures does { Does t.now parts.old from.parts result parts.new (item_entries level (tokens_from t.now from.place)) }
    ensures moves { Moves t.now from.place from.parts (place_of result) (parts_of result) }
{
    match level {
        Level::Steps => step(t, from, parts),
        Level::Sequences => sequence(t, from, parts),
    }
}

// Reads all that are joined to the first, which stands from part n on.
#[cycle(readers)]
fn items(t: &[u8], first: Reached, parts: &mut [u8], n: u16, level: Level) -> Read
    requires { Room t.now first.place first.parts }
    ensures continues { Continues (rest_entries level) t.now n first parts.old result parts.new }
    ensures moves { Moves t.now first.place first.parts (place_of result) (parts_of result) }
{
    let joining = joining_mark(level);
    let mut at = first;
    let mut count: u16 = 1;
    while stands_at(t, at.place, joining) {
        let next = Reached {
            place: after(t, at.place),
            ..at
        };
        at = item(t, next, parts, level)?;
        count += 1;
    }
    Ok(Reached {
        place: at.place,
        parts: join(parts, n, at.parts, level, count),
    })
}

// Reads what follows the first step of a body: the other steps of its sequence, and the other sequences.
#[cycle(readers)]
fn tail(t: &[u8], first: Reached, parts: &mut [u8], n: u16) -> Read
    requires { Room t.now first.place first.parts }
    ensures continues { Continues tail_entries t.now n first parts.old result parts.new }
    ensures moves { Moves t.now first.place first.parts (place_of result) (parts_of result) }
{
    let sequence = items(t, first, parts, n, Level::Steps)?;
    items(t, sequence, parts, n, Level::Sequences)
}

// Reads a body: a whole text without its sizes and colon. Where it begins with brackets, each of these groups is the
// first step of the body around it; so a run of brackets takes no call for each.
#[cycle(readers)]
pub(crate) fn body(t: &[u8], from: Reached, parts: &mut [u8]) -> Read
    requires { Room t.now from.place from.parts }
    ensures does { Does t.now parts.old from.parts result parts.new (body_entries (tokens_from t.now from.place)) }
    ensures moves { Moves t.now from.place from.parts (place_of result) (parts_of result) }
{
    let Opened { count, place } = brackets(t, from.place);
    let inner = Reached { place, ..from };
    let first = step(t, inner, parts)?;
    let mut at = tail(t, first, parts, from.parts)?;
    for _ in 0..count {
        let group = expect(t, at, Mark::Closing)?;
        at = tail(t, group, parts, from.parts)?;
    }
    Ok(at)
}
