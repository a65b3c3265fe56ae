// Assembles a text at the desk: its program file is written, or the words that say why the text is refused.
#![tactic(auto)]

ghost use Rattle.std.specs.Prelude.{◌≤◌, length};
ghost use Rattle.meaning.specs.declared.Form.TheVariants.{File};
ghost use Rattle.meaning.specs.Sizes.{max_parts, length_of};
ghost use Rattle.desk_assembly.specs.Assembly.{Assembling};

use desk_texts::words::write_words;
use meaning::{Form, Refusal};
use program_part::layout::{length_of, parts};
use text_assemble::{assemble, stop_place};

// Why a text is refused, and the length of the words that say so.
#[derive(Clone, Copy, PartialEq, Eq)]
pub struct Refused {
    pub why: Refusal,
    pub length: usize,
}

// Writes the program file of a text into `file`, which has room for the longest, and gives its length; or writes into
// `words` why the text is refused.
pub fn assemble_text(text: &[u8], file: &mut [u8], words: &mut [u8]) -> Result<usize, Refused>
    requires { length_of File max_parts ≤ length file.old }
    ensures { Assembling text.now file.old file.new words.old words.new result }
{
    match assemble(text, file) {
        Ok(()) => Ok(length_of(Form::File, parts(file))),
        Err(why) => {
            let length = write_words(why, text, stop_place(text), words);
            Err(Refused { why, length })
        }
    }
}
