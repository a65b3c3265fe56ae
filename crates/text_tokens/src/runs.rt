// Where the runs of bytes begin and end that are tokens.
ghost use Rattle.std.specs.Prelude.{◌≡◌, false, ◌<◌, ◌≤◌, length, get_or, drop, take_while};
ghost use Rattle.text_grammar.specs.Characters.{is_blank, is_digit, is_word_byte};
ghost use Rattle.text_tokens.specs.First.{Skipped, WordEnds, RunEnds};

use base::at;

#[tactic(auto, unfolding(text_grammar::specs::Characters::is_blank))]
fn is_blank(b: u8) -> bool
    ensures { result ≡ is_blank b }
{
    matches!(b, b' ' | b'\n')
}

#[tactic(auto, unfolding(text_grammar::specs::Characters::is_digit))]
pub(crate) fn is_digit(b: u8) -> bool
    ensures { result ≡ is_digit b }
{
    matches!(b, b'0'..=b'9')
}

// Whether a byte is a small letter or a digit.
#[tactic(auto, unfolding(text_grammar::specs::Characters::is_word_byte))]
fn is_word_byte(b: u8) -> bool
    ensures { result ≡ is_word_byte b }
{
    matches!(b, b'a'..=b'z') || is_digit(b)
}

// What stands from `from` on; nothing, where that is beyond the end. By a slice: an iterator's `skip` goes over all that
// stands before.
fn rest(t: &[u8], from: usize) -> &[u8]
    ensures { result.now ≡ drop from t.now }
{
    &t[from.min(t.len())..]
}

// How many blanks stand from `from` on.
fn blanks(t: &[u8], from: usize) -> usize
    ensures { result ≡ length (take_while is_blank (drop from t.now)) }
{
    rest(t, from).iter().take_while(|b| is_blank(**b)).count()
}

// The place of the first byte from `from` on that is no blank, or the text's end.
#[tactic(auto, using(crate::proofs::Ends::counted_fits))]
pub fn skip_blanks(t: &[u8], from: usize) -> usize
    ensures { Skipped t.now from result }
{
    from + blanks(t, from)
}

// How many letters and digits stand from `from` on. A function beside `blanks`, since one with the byte's test as a
// parameter would have each caller say what its closure decides.
fn word_bytes(t: &[u8], from: usize) -> usize
    ensures { result ≡ length (take_while is_word_byte (drop from t.now)) }
{
    rest(t, from)
        .iter()
        .take_while(|b| is_word_byte(**b))
        .count()
}

// The end of the letters and digits from `from` on.
#[tactic(auto, using(crate::proofs::Ends::counted_fits))]
fn word_end(t: &[u8], from: usize) -> usize
    requires { from ≤ length t.now }
    ensures { WordEnds t.now from result }
{
    from + word_bytes(t, from)
}

// The end of the run that begins at place i: letters and digits, `!=`, `>=`, or one byte.
pub(crate) fn run_end(t: &[u8], i: usize) -> usize
    requires i_in_bounds { i < length t.now }
    requires i_value { is_blank (get_or t.now i 0) ≡ false }
    ensures { RunEnds t.now i result }
{
    let b = t[i];
    if is_word_byte(b) {
        return word_end(t, i);
    }
    let next = at(t, i + 1);
    // One test by `&`: by `&&` the proof does not know on the way on that it failed.
    if ((b == b'!') | (b == b'>')) & (next == b'=') {
        return i + 2;
    }
    i + 1
}
