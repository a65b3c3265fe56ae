// Reads the tokens of a text: the first one from a place on, and its end.
#![tactic(auto)]

pub mod runs;
pub mod tokens;

ghost use Rattle.std.specs.Prelude.{◌≡◌, ◌≤◌, length, Some};
ghost use Rattle.std.specs.Bool.{Decides};
ghost use Rattle.text_grammar.specs.declared.tokens.Token.TheVariants.{Mark as mark};
ghost use Rattle.text_grammar.specs.Lexer.{tokens_from};
ghost use Rattle.text_tokens.specs.First.{first_token, Passed};

use crate::runs::{run_end, skip_blanks};
use crate::tokens::{spells, token_of};
use text_grammar::tokens::{Mark, Token};

// The first token from place `from` on, if there is one.
#[tactic(auto, using(crate::proofs::Ends::token_none))]
pub fn token_at(t: &[u8], from: usize) -> Option<Token>
    requires { from ≤ length t.now }
    ensures { result ≡ first_token (tokens_from t.now from) }
{
    let i = skip_blanks(t, from);
    if t.len() <= i {
        return None;
    }
    let e = run_end(t, i);
    Some(token_of(&t[i..e]))
}

// Whether the first token from place `from` on is this mark. By its spelling alone, since to tell which token stands there
// takes more. In line: a reader asks it of one mark, again and again.
#[inline(always)]
pub fn stands(t: &[u8], from: usize, m: Mark) -> bool
    requires { from ≤ length t.now }
    ensures { Decides result (first_token (tokens_from t.now from) ≡ Some (mark m)) }
{
    let i = skip_blanks(t, from);
    if t.len() <= i {
        return false;
    }
    let e = run_end(t, i);
    spells(&t[i..e], m)
}

// The place after the first token from place `from` on, or the text's end where there is none.
pub fn end_at(t: &[u8], from: usize) -> usize
    requires { from ≤ length t.now }
    ensures { Passed t.now from result }
{
    let i = skip_blanks(t, from);
    if t.len() <= i {
        return i;
    }
    run_end(t, i)
}
