// The line and the column of a place, both counted from 1. A column is a byte.
ghost use Rattle.std.specs.Prelude.{◌≡◌, ◌≤◌, length};
ghost use Rattle.text_grammar.specs.Texts.{max_text_length};
ghost use Rattle.desk_texts.specs.Places.{line_of, column_of};

// The byte that ends a line.
const LINE_END: u8 = b'\n';

// The line in which a place stands.
pub fn line_of(text: &[u8], place: usize) -> usize
    requires place_in_bounds { place ≤ length text.now }
    requires place_le_max_text_length { place ≤ max_text_length }
    ensures { result ≡ line_of text.now place }
{
    let mut line = 1;
    for b in &text[..place] {
        if *b == LINE_END {
            line += 1;
        }
    }
    line
}

// The column in which a place stands.
pub fn column_of(text: &[u8], place: usize) -> usize
    requires place_in_bounds { place ≤ length text.now }
    requires place_le_max_text_length { place ≤ max_text_length }
    ensures { result ≡ column_of text.now place }
{
    let mut column = 1;
    for b in &text[..place] {
        if *b == LINE_END {
            column = 1;
        } else {
            column += 1;
        }
    }
    column
}
