// Writing the rows of a file that is accepted, from the last part down: when a part's turn comes, the
// rows of its children stand already, and say where they end. A row has no parent and no next until its
// parent's turn comes, and the root's has none at all.
ghost use Rattle.std.specs.Prelude.{◌≡◌, ◌+◌, ◌≤◌, length};
ghost use Rattle.std.proofs.lemmas.List.Edits.{sets};
ghost use Rattle.meaning.specs.declared.Form.TheVariants.{File, Table};
ghost use Rattle.meaning.specs.Sizes.{header_length, length_of};
ghost use Rattle.meaning.specs.Program.{parts};
ghost use Rattle.program_walk.specs.Walk.{Walkable, OneTree};
ghost use Rattle.program_rows.specs.Rows.{Forest, row_written, rows_of};

use crate::rows::{next_of, put_links, put_row};
use meaning::sizes::{END_PLACE, NO_PART};
use meaning::{Form, Number};
use program_part::kinds::arity;
use program_part::layout::{parts, read_number, row_place};
use program_walk::walker::entry_at;

// Writes the row of part p, and links its children: each gets p for its parent, and its next.
fn write_row(s: &[u8], out: &mut [u8], p: Number)
    requires walkable { Walkable File s.now p }
    requires s_in_bounds { length_of Table (parts s.now) ≤ length out.old }
    requires forest { Forest s.now out.old (p + 1) }
    ensures { out.new ≡ row_written s.now p out.old }
{
    let part = entry_at(s, Form::File, p);
    let mut q = p + 1;
    for remaining in (0..arity(part)).rev() {
        let e = read_number(out, row_place(q) + END_PLACE);
        let next = next_of(part.kind, q, e, remaining > 0);
        put_links(out, q, p, next);
        q = e;
    }
    put_row(out, p, part, q, NO_PART, NO_PART);
}

// Writes the rows of all parts.
pub fn write_rows(s: &[u8], out: &mut [u8])
    requires one_tree { OneTree s.now }
    requires s_in_bounds { length_of Table (parts s.now) ≤ length out.old }
    ensures { out.new ≡ sets out.old header_length (rows_of s.now) }
{
    for p in (0..parts(s)).rev() {
        write_row(s, out, p);
    }
}
