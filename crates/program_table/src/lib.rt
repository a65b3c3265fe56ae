// The check of a location table: whether bytes are the table of some file (9).
#![tactic(auto)]

pub mod checking;
pub mod table;

ghost use Rattle.std.specs.Prelude.{◌≡◌};
ghost use Rattle.meaning.specs.Table.{is_table};

use crate::checking::{Rows, parts_end};
use meaning::Form;
use meaning::sizes::HEADER;
use program_part::layout::{length_of, parts, sizes_allowed};

// Whether the bytes are the table of some file. Test by test, and not in one `&&`: each answer has a law of its own.
pub fn is_table(table: &[u8]) -> bool
    ensures { result ≡ is_table table.now }
{
    if table.len() < HEADER {
        return false;
    }
    if !sizes_allowed(table) {
        return false;
    }
    if table.len() != length_of(Form::Table, parts(table)) {
        return false;
    }
    if parts_end(table, 0, 1, 0) != parts(table) {
        return false;
    }
    Rows { bytes: table }.rows_match()
}
