// Rows: what a table has for a part, from its entry and its links.
ghost use Rattle.std.specs.Prelude.{◌≡◌, ◌+◌, ◌*◌, ◌≤◌, length};
ghost use Rattle.std.proofs.lemmas.List.Edits.{sets};
ghost use Rattle.meaning.specs.Sizes.{number_width, header_length, operand_length, row_length, number_bytes};
ghost use Rattle.meaning.specs.Kinds.{kind_of};
ghost use Rattle.meaning.specs.Program.{operand_bytes};
ghost use Rattle.meaning.specs.Table.{next_of};
ghost use Rattle.program_rows.specs.Rows.{entry_row, with_links};

use base::store;
use meaning::kinds::Kind;
use meaning::sizes::{END_PLACE, NEXT_PLACE, NO_PART, OPERAND, OPERAND_PLACE, PARENT_PLACE};
use meaning::{Entry, Number, Operand};
use program_part::layout::row_place;

// The next of a child of a part whose kind is that byte.
#[tactic(auto, unfolding(meaning::specs::Table::next_of))]
pub fn next_of(kind: u8, q: Number, e: Number, follows: bool) -> Number
    ensures { result ≡ next_of (kind_of kind) q e follows }
{
    match Kind::from(kind) {
        Kind::Seq => { if follows { e } else { NO_PART } }
        Kind::Repeat => q,
        _ => NO_PART,
    }
}

// Stores an operand from place i on.
#[tactic(auto, using(crate::proofs::Storing::operand_stored))]
pub fn put_operand(out: &mut [u8], i: usize, o: Operand)
    requires { i + operand_length ≤ length out.old }
    ensures { out.new ≡ sets out.old i (operand_bytes o) }
{
    out[i..i + OPERAND].copy_from_slice(&[o.b0, o.b1, o.b2, o.b3]);
}

// Stores a part's number from place i on.
fn put_number(out: &mut [u8], i: usize, x: Number)
    requires { i + number_width ≤ length out.old }
    ensures { out.new ≡ sets out.old i (number_bytes x) }
{
    store(out, i, x);
}

// Stores the parent and the next of part q in its row.
pub(crate) fn put_links(out: &mut [u8], q: Number, parent: Number, next: Number)
    requires { header_length + row_length * q + row_length ≤ length out.old }
    ensures { out.new ≡ with_links out.old q parent next }
{
    let i = row_place(q);
    put_number(out, i + PARENT_PLACE, parent);
    put_number(out, i + NEXT_PLACE, next);
}

// Stores the row of part q, which ends at e, stands in `parent` and has that next.
pub(crate) fn put_row(
    out: &mut [u8],
    q: Number,
    part: Entry,
    e: Number,
    parent: Number,
    next: Number,
)
    requires { header_length + row_length * q + row_length ≤ length out.old }
    ensures { out.new ≡ sets out.old (header_length + row_length * q) (entry_row part e parent next) }
{
    let i = row_place(q);
    store(out, i, part.kind);
    put_number(out, i + END_PLACE, e);
    put_links(out, q, parent, next);
    let o = part.operand;
    put_operand(out, i + OPERAND_PLACE, o);
}
