// The two arrays of a program file, written from a table's rows where there is room for them.
ghost use Rattle.std.specs.Prelude.{◌≡◌, ◌≤◌, length};
ghost use Rattle.std.proofs.lemmas.List.Edits.{sets};
ghost use Rattle.meaning.specs.declared.Form.TheVariants.{File, Table as table_form};
ghost use Rattle.meaning.specs.Sizes.{header_length, length_of};
ghost use Rattle.meaning.specs.Program.{parts, entries, arrays};

use base::store;
use meaning::Form;
use program_part::layout::{kind_place, operand_place};
use program_rows::rows::put_operand;
use program_table::table::Table;

// Writes the kind and the operand of each part, each into its array.
pub(crate) fn write_arrays(table: Table<'_>, file: &mut [u8])
    requires { length_of File (parts table.bytes.now) ≤ length file.old }
    ensures { file.new ≡ sets file.old header_length (arrays (entries table_form table.entry.bytes.now)) }
{
    let n = table.parts();
    for p in 0..n {
        let part = table.entry(p);
        store(file, kind_place(Form::File, n, p), part.kind);
        put_operand(file, operand_place(Form::File, n, p), part.operand);
    }
}
