// Reads the program file, before the first line.
ghost use Rattle.std.specs.Prelude.{◌≤◌};
ghost use Rattle.meaning.specs.Answers.{refusal_number};
ghost use Rattle.desk_format.specs.Writing.{Written};
ghost use Rattle.desk_answers.specs.Answers.{refused_text};
ghost use Rattle.desk_transcript.specs.Transcript.{max_answer};
ghost use Rattle.desk_rehearsal.specs.Opening.{Opening};

use desk_answers::write_refused;
use desk_format::page::Page;
use meaning::{Form, Refusal};
use program_compile::compile;
use program_part::layout::{length_of, parts};

// Writes the text of a refusal, and gives its length.
pub fn write_refusal(why: Refusal, out: &mut [u8]) -> usize
    ensures written { Written (refused_text (refusal_number why)) out.old 0 out.new result }
    ensures upper_bound { result ≤ max_answer }
{
    let mut page = Page::new(out);
    write_refused(why, &mut page);
    page.length
}

// Writes the table of a program file and gives its length, or writes the text that says why the file is refused and
// gives the length of that.
pub fn open_program(file: &[u8], table: &mut [u8], out: &mut [u8]) -> Result<usize, usize>
    ensures { Opening file.now table.old table.new out.old out.new result }
{
    match compile(file, table) {
        Ok(()) => Ok(length_of(Form::Table, parts(file))),
        Err(why) => Err(write_refusal(why, out)),
    }
}
