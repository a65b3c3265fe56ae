// Reads a whole text: its sizes, the colon and its body.
ghost use Rattle.std.specs.Prelude.{◌≡◌, ◌≤◌, length};
ghost use Rattle.std.specs.Option.{is_some};
ghost use Rattle.text_grammar.specs.Texts.{max_text_length};
ghost use Rattle.text_grammar.specs.Lexer.{tokens, tokens_from};
ghost use Rattle.text_grammar.specs.Parser.{parse_text};
ghost use Rattle.text_stops.specs.Places.{cut_at};
ghost use Rattle.text_tokens.specs.First.{first_token};
ghost use Rattle.text_read.specs.Entries.{parse_header, parse_program};
ghost use Rattle.text_read.specs.Reading.{ReadsHeader, ReadsText};

use crate::leaves::{after, number_from, stands_at};
use crate::steps::body;
use crate::{Header, Program, Reached, Stop};
use text_grammar::tokens::Mark;
use text_tokens::token_at;

// Reads the sizes and the colon.
fn read_header(t: &[u8]) -> Result<Header, Stop>
    requires { length t.now ≤ max_text_length }
    ensures { ReadsHeader t.now result (parse_header (tokens_from t.now 0)) }
{
    let second = after(t, 0);
    let third = after(t, second);
    let variables = number_from(t, 0)?;
    let clocks = number_from(t, second)?;
    if !stands_at(t, third, Mark::Colon) {
        return Err(Stop { place: third });
    }
    Ok(Header {
        variables,
        clocks,
        body: after(t, third),
    })
}

// Whether a text goes on with a token from place e on.
fn goes_on(t: &[u8], e: u16) -> bool
    requires { e ≤ length t.now }
    ensures { result ≡ is_some (first_token (tokens_from t.now e)) }
{
    token_at(t, usize::from(e)).is_some()
}

// Reads the body, with which the text must end.
fn read_program(t: &[u8], header: Header, parts: &mut [u8]) -> Result<Program, Stop>
    requires t_len_bound { length t.now ≤ max_text_length }
    requires body_in_bounds { header.body ≤ length t.now }
    requires body_value { cut_at t.now header.body ≡ 0 }
    ensures { ReadsText t.now parts.old result parts.new (parse_program header.variables header.clocks (tokens_from t.now header.body)) }
{
    let begin = Reached {
        place: header.body,
        parts: 0,
    };
    let end = body(t, begin, parts)?;
    if goes_on(t, end.place) {
        return Err(Stop { place: end.place });
    }
    Ok(Program {
        parts: end.parts,
        variables: header.variables,
        clocks: header.clocks,
    })
}

// Reads a text of at most the longest length: its parts are stored from the buffer's begin on.
pub fn read_text(t: &[u8], parts: &mut [u8]) -> Result<Program, Stop>
    requires { length t.now ≤ max_text_length }
    ensures { ReadsText t.now parts.old result parts.new (parse_text (tokens t.now)) }
{
    let header = read_header(t)?;
    read_program(t, header, parts)
}
