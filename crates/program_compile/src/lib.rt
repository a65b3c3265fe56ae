// The operation that compiles: it writes the location table of a program file (1 to 8).
#![tactic(auto)]

ghost use Rattle.std.specs.Prelude.{◌≡◌, ◌≤◌, length};
ghost use Rattle.std.proofs.lemmas.List.Edits.{sets};
ghost use Rattle.meaning.specs.declared.Form.TheVariants.{File, Table};
ghost use Rattle.meaning.specs.Sizes.{length_of};
ghost use Rattle.meaning.specs.Program.{parts, program_refusal};
ghost use Rattle.meaning.specs.Table.{compiled, compile_refusal, compiled_into};
ghost use Rattle.meaning.specs.Answers.{answer_number};

use meaning::sizes::HEADER;
use meaning::{Answer, Form, Refusal};
use program_part::layout::{length_of, parts};
use program_refusals::program_refusal;
use program_rows::writing::write_rows;

// Compiles a program file into its location table: refusals 1 to 7, then 8.
pub fn compile(file: &[u8], table: &mut [u8]) -> Answer<()>
    ensures result_value { answer_number result ≡ compile_refusal file.now (length table.old) }
    ensures table_after { table.new ≡ compiled_into file.now table.old }
{
    program_refusal(file)?;
    if table.len() < length_of(Form::Table, parts(file)) {
        return Err(Refusal::BufferTooShort);
    }
    write_table(file, table);
    Ok(())
}

// Writes the table of an accepted file: its sizes, and a row for each part.
fn write_table(file: &[u8], table: &mut [u8])
    requires file_value { program_refusal File file.now ≡ 0 }
    requires file_in_bounds { length_of Table (parts file.now) ≤ length table.old }
    ensures { table.new ≡ sets table.old 0 (compiled File file.now) }
{
    table[..HEADER].copy_from_slice(&file[..HEADER]);
    write_rows(file, table);
}
