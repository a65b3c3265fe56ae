// The check of a table's rows. First a part recurses into its children, to find where it ends; then the
// rows are gone over in their order, and each byte is compared with the one that the kinds and operands
// imply. Nothing is stored.
ghost use Rattle.std.specs.Prelude.{◌≡◌, ◌+◌, ◌-◌, ◌<◌, ◌≤◌, length};
ghost use Rattle.meaning.specs.declared.Form.TheVariants.{Table};
ghost use Rattle.meaning.specs.Sizes.{max_depth, row_length, length_of};
ghost use Rattle.meaning.specs.Program.{parts};
ghost use Rattle.meaning.specs.Table.{compiled, parent_at};
ghost use Rattle.program_part.specs.Readable.{Readable};
ghost use Rattle.program_walk.specs.Walk.{parts_end};
ghost use Rattle.program_table.specs.Checking.{end_stored, Ending, ParentsAgree, links_in, row_byte, row_is, rows_are};

use meaning::sizes::{END_PLACE, MAX_DEPTH, NEXT_PLACE, NO_PART, PARENT_PLACE, ROW};
use meaning::{Form, Number};
use program_part::kinds::children_of;
use program_part::layout::{end_at, next_at, parent_at, parts, read_sizes, row_place};
use program_rows::rows::next_of;
use program_walk::walker::entry_at;

// The end of `count` parts in a row, of which part p is the first, and which are the children of a part at
// depth `outer`. It is 0 if there are too few parts, if a part is not allowed or too deep, or if its row has
// another end. Fewer parts remain at each call, and the calls are at most as deep as a part may be. As in the
// walk over a file, one number is what `parts_end` of the definitions gives.
pub(crate) fn parts_end(t: &[u8], p: Number, count: Number, outer: u8) -> Number
    requires t_in_bounds { length_of Table (parts t.now) ≤ length t.now }
    requires outer_lt_max_depth { outer < max_depth }
    ensures { result ≡ parts_end Table t.now (end_stored t.now) (max_depth - outer) count p }
{
    let sizes = read_sizes(t);
    let depth = outer + 1;
    let mut q = p;
    for _ in 0..count {
        if sizes.parts <= q {
            return 0;
        }
        let part = entry_at(t, Form::Table, q);
        let Some(inside) = children_of(sizes.variables, sizes.clocks, part) else {
            return 0;
        };
        let mut e = q + 1;
        if inside > 0 {
            if depth == MAX_DEPTH {
                return 0;
            }
            e = parts_end(t, q + 1, inside, depth);
            if e == 0 {
                return 0;
            }
        }
        if e != end_at(t, q) {
            return 0;
        }
        q = e;
    }
    q
}

// What a row says of its part's place in the tree.
#[derive(Clone, Copy)]
pub struct Links {
    pub end: Number,
    pub parent: Number,
    pub next: Number,
}

// The bytes of a program, as long as its parts need, in which each part ends where its row says.
#[derive(Clone, Copy)]
pub(crate) struct Rows<'a> {
    pub bytes: &'a [u8],
    pub ghost readable: { Readable Table bytes.now 0 },
    pub ghost ending: { Ending bytes.now },
}

impl<'a> Rows<'a> {
    // The part in which part p stands: of those before p the innermost that has not ended. It stands around
    // the part just before p, or is that part.
    fn parent_of(self, p: Number) -> Number
        requires there { p < parts self.bytes.now }
        requires p_nonzero { 0 < p }
        requires parents_agree { ParentsAgree self.bytes.now p }
        ensures { result ≡ parent_at (compiled Table self.entry.bytes.now) p }
    {
        let t = self.bytes;
        let mut q = p - 1;
        while end_at(t, q) <= p {
            q = parent_at(t, q);
        }
        q
    }

    // The links that are implied for part p, which is not the root.
    fn links_of(self, p: Number) -> Links
        requires there { p < parts self.bytes.now }
        requires p_nonzero { 0 < p }
        requires parents_agree { ParentsAgree self.bytes.now p }
        ensures { result ≡ links_in (compiled Table self.entry.bytes.now) p }
    {
        let t = self.bytes;
        let end = end_at(t, p);
        let parent = self.parent_of(p);
        let around = entry_at(t, Form::Table, parent);
        let next = next_of(around.kind, p, end, end < end_at(t, parent));
        Links { end, parent, next }
    }

    // Byte j of the row of part p, which has these links: every other byte is implied by the row itself.
    fn implied(self, p: Number, links: Links, j: usize) -> u8
        requires there { p < parts self.bytes.now }
        requires links_value { links ≡ links_in (compiled Table self.bytes.now) p }
        requires j_lt_row_length { j < row_length }
        ensures { result ≡ row_byte (compiled Table self.entry.bytes.now) p j }
    {
        match j {
            END_PLACE => links.end,
            PARENT_PLACE => links.parent,
            NEXT_PLACE => links.next,
            _ => self.bytes[row_place(p) + j],
        }
    }

    // Whether the root's row is the one implied: the root has no parent and no next.
    fn root_matches(self) -> bool
        ensures { result ≡ row_is self.entry.bytes.now 0 }
    {
        (NO_PART == parent_at(self.bytes, 0)) & (NO_PART == next_at(self.bytes, 0))
    }

    // Whether every row is the one implied. A row's kind and operand imply themselves, so that only its links can
    // differ; document 01's check goes over all eight bytes, and ends at the first that differs.
    pub(crate) fn rows_match(self) -> bool
        ensures { result ≡ rows_are self.entry.bytes.now }
    {
        if !self.root_matches() {
            return false;
        }
        let t = self.bytes;
        let mut matches = true;
        'rows: for p in 1..parts(t) {
            let links = self.links_of(p);
            let start = row_place(p);
            for j in 0..ROW {
                if self.implied(p, links, j) != t[start + j] {
                    matches = false;
                    break 'rows;
                }
            }
        }
        matches
    }
}
