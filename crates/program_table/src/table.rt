// A table that has been checked, and what stands in it: a part that the table has is read without a test.
ghost use Rattle.std.specs.Prelude.{◌≡◌, true, false, ◌<◌, IfOk, IfErr};
ghost use Rattle.meaning.specs.declared.Form.TheVariants.{Table as table_form};
ghost use Rattle.meaning.specs.declared.Refusal.TheVariants.{NotATable};
ghost use Rattle.meaning.specs.Kinds.{kind_of};
ghost use Rattle.meaning.specs.Program.{parts, variables, clocks, entry_at};
ghost use Rattle.meaning.specs.Table.{is_table, end_at, parent_at, next_at, inside_of};

use crate::is_table;
use meaning::kinds::Kind;
use meaning::{Answer, Entry, Form, Number, Refusal};
use program_part::layout;
use program_walk::walker::entry_at;

#[derive(Clone, Copy)]
pub struct Table<'a> {
    pub bytes: &'a [u8],
    pub ghost checked: { is_table bytes.now ≡ true },
}

impl<'a> Table<'a> {
    // The bytes as a table: refused (9) where they are the table of no file.
    // In line, so that the answer takes no room on the stack.
    #[inline(always)]
    pub fn new(bytes: &'a [u8]) -> Answer<Table<'a>>
        ensures ok { IfOk result (λ t. t.bytes ≡ bytes.entry) }
        ensures err { IfErr result (λ why. (why ≡ NotATable) × (is_table bytes.now ≡ false)) }
    {
        if is_table(bytes) {
            Ok(Table { bytes })
        } else {
            Err(Refusal::NotATable)
        }
    }

    pub fn parts(self) -> Number
        ensures { result ≡ parts self.entry.bytes.now }
    {
        layout::parts(self.bytes)
    }

    pub fn variables(self) -> u8
        ensures { result ≡ variables self.entry.bytes.now }
    {
        layout::variables(self.bytes)
    }

    pub fn clocks(self) -> u8
        ensures { result ≡ clocks self.entry.bytes.now }
    {
        layout::clocks(self.bytes)
    }

    // The kind byte and the operand of part p.
    pub fn entry(self, p: Number) -> Entry
        requires { p < parts self.bytes.now }
        ensures { result ≡ entry_at table_form self.entry.bytes.now p }
    {
        entry_at(self.bytes, Form::Table, p)
    }

    // In line, so that a match on the kind is a match on the byte where it is called.
    #[inline(always)]
    pub fn kind(self, p: Number) -> Kind
        requires { p < parts self.bytes.now }
        ensures { result ≡ kind_of (entry_at table_form self.entry.bytes.now p).kind }
    {
        Kind::from(self.entry(p).kind)
    }

    // One past the last part inside part p.
    pub fn end(self, p: Number) -> Number
        requires { p < parts self.bytes.now }
        ensures { result ≡ end_at self.entry.bytes.now p }
    {
        layout::end_at(self.bytes, p)
    }

    // The part around part p, and the part that begins when p ends.
    pub fn parent(self, p: Number) -> Number
        requires { p < parts self.bytes.now }
        ensures { result ≡ parent_at self.entry.bytes.now p }
    {
        layout::parent_at(self.bytes, p)
    }

    pub fn next(self, p: Number) -> Number
        requires { p < parts self.bytes.now }
        ensures { result ≡ next_at self.entry.bytes.now p }
    {
        layout::next_at(self.bytes, p)
    }

    // How many parts stand inside part p.
    pub fn inside(self, p: Number) -> Number
        requires { p < parts self.bytes.now }
        ensures { result ≡ inside_of self.entry.bytes.now p }
    {
        layout::inside_of(self.bytes, p)
    }
}
