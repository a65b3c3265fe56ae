// The operation that decompiles: it writes the program file of a location table (9, 8).
#![tactic(auto)]

pub mod arrays;

ghost use Rattle.std.specs.Prelude.{◌≡◌, ◌≤◌, length};
ghost use Rattle.std.proofs.lemmas.List.Edits.{sets};
ghost use Rattle.meaning.specs.declared.Form.TheVariants.{File};
ghost use Rattle.meaning.specs.Sizes.{length_of};
ghost use Rattle.meaning.specs.Program.{parts};
ghost use Rattle.meaning.specs.Table.{file_in};
ghost use Rattle.meaning.specs.Answers.{answer_number};
ghost use Rattle.meaning.specs.Operations.{Decompiled};

use crate::arrays::write_arrays;
use meaning::sizes::HEADER;
use meaning::{Answer, Form, Refusal};
use program_part::layout::length_of;
use program_table::table::Table;

// Decompiles a location table into the file that it holds: refusals 9, then 8.
pub fn decompile(table: &[u8], file: &mut [u8]) -> Answer<()>
    ensures { Decompiled table.now file.old (answer_number result) file.new }
{
    let checked = Table::new(table)?;
    if file.len() < length_of(Form::File, checked.parts()) {
        return Err(Refusal::BufferTooShort);
    }
    write_file(checked, file);
    Ok(())
}

// Writes the file that a table holds.
fn write_file(table: Table<'_>, file: &mut [u8])
    requires { length_of File (parts table.bytes.now) ≤ length file.old }
    ensures { file.new ≡ sets file.old 0 (file_in table.entry.bytes.now) }
{
    file[..HEADER].copy_from_slice(&table.bytes[..HEADER]);
    write_arrays(table, file);
}
