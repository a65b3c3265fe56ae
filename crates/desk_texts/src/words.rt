// What a refusal of a text says in words: one line.
ghost use Rattle.std.specs.Prelude.{◌≤◌, length};
ghost use Rattle.meaning.specs.Answers.{refusal_number};
ghost use Rattle.text_grammar.specs.Texts.{max_text_length};
ghost use Rattle.desk_format.specs.Writing.{Written};
ghost use Rattle.desk_format.specs.Pages.{Adds};
ghost use Rattle.desk_texts.specs.Words.{column_text, outside_text, not_a_text_text, refusal_text, max_words};

use crate::places::{column_of, line_of};
use desk_answers::write_refused;
use desk_format::page::Page;
use meaning::Refusal;
use text_assemble::MAX_TEXT;

// Room for the longest line.
pub const MAX_WORDS: usize = 128;

// Writes a column, to the end of the line.
fn write_column(column: usize, page: &mut Page<'_>)
    ensures { Adds (column_text column) page.old page.new }
{
    page.word(b", column ");
    page.number(column as u64);
    page.word(b" on\n");
}

// Writes from which place on a text does not fit the grammar.
fn write_outside(text: &[u8], place: usize, page: &mut Page<'_>)
    requires place_in_bounds { place ≤ length text.now }
    requires place_le_max_text_length { place ≤ max_text_length }
    ensures { Adds (outside_text text.now place) page.old page.new }
{
    page.word(b"refused 16: the text does not fit the grammar from line ");
    page.number(line_of(text, place) as u64);
    write_column(column_of(text, place), page);
}

// Writes why a text is none: it is too long, or does not fit the grammar from this place on.
fn write_not_a_text(text: &[u8], place: usize, page: &mut Page<'_>)
    requires { place ≤ length text.now }
    ensures { Adds (not_a_text_text text.now place) page.old page.new }
{
    if MAX_TEXT < text.len() {
        page.word(b"refused 16: the text has more than 16384 bytes\n");
        return;
    }
    write_outside(text, place, page);
}

// Writes why a text is refused, on a page. The place counts only where the text does not fit the grammar.
fn add_words(why: Refusal, text: &[u8], place: usize, page: &mut Page<'_>)
    requires { place ≤ length text.now }
    ensures { Adds (refusal_text (refusal_number why) text.now place) page.old page.new }
{
    match why {
        Refusal::SizeOutOfRange => page.word(
            b"refused 2: a size is out of range (1 to 200 parts, 1 to 32 variables, 0 to 16 clocks)\n",
        ),
        Refusal::OperandNotAllowed => page.word(
            b"refused 5: a variable, clock or value is not allowed (variables below V, clocks below K, values of variables up to 250)\n",
        ),
        Refusal::TooDeep => page.word(b"refused 7: a part stands more than 16 deep\n"),
        Refusal::NotAText => write_not_a_text(text, place, page),
        _ => write_refused(why, page),
    }
}

// Writes why a text is refused, and gives the length of the words. The place counts only where the text does not fit
// the grammar.
pub fn write_words(why: Refusal, text: &[u8], place: usize, out: &mut [u8]) -> usize
    requires { place ≤ length text.now }
    ensures written { Written (refusal_text (refusal_number why) text.now place) out.old 0 out.new result }
    ensures upper_bound { result ≤ max_words }
{
    let mut page = Page::new(out);
    add_words(why, text, place, &mut page);
    page.length
}
