// A program is given to the desk as a program file or as a text.
ghost use Rattle.std.specs.Prelude.{◌≡◌};
ghost use Rattle.desk_texts.specs.Forms.{is_text};

// A program file has a byte below this among its first four: the fourth is the kind of a part. A text has none: its
// bytes are line ends, spaces and signs that can be printed.
const LEAST_BYTE: u8 = 10;

const TELLING: usize = 4;

// Whether an input is a text. One of no bytes is a program file, which is too short.
pub fn is_text(input: &[u8]) -> bool
    ensures { result ≡ is_text input.now }
{
    let front = &input[..input.len().min(TELLING)];
    !front.is_empty() && front.iter().all(|b| LEAST_BYTE <= *b)
}
