// The walker: it carries the borrowed file, or table, and the number of the next part. A thin layer
// above functions on slice and number: it is made at the root, stepped on, and taken apart for the
// entry of its part (`read_entry`). Every other caller goes through `entry_at`, whose parameters are
// plain.
ghost use Rattle.std.specs.Prelude.{◌≡◌};
ghost use Rattle.meaning.specs.Program.{entry_at};
ghost use Rattle.program_part.specs.Readable.{Readable};

use meaning::{Entry, Form, Number};
use program_part::layout::read_entry;

#[derive(Clone, Copy)]
pub struct Walker<'a> {
    pub file: &'a [u8],
    pub next: Number,
}

impl<'a> Walker<'a> {
    // A walker at the first part.
    pub fn root(file: &'a [u8]) -> Walker<'a>
        ensures { (result.file ≡ file.entry) × (result.next ≡ 0) }
    {
        Walker { file, next: 0 }
    }

    // The walker stepped on to part p.
    pub fn stepped(self, p: Number) -> Walker<'a>
        ensures { (result.file ≡ self.entry.file) × (result.next ≡ p) }
    {
        Walker { next: p, ..self }
    }

    // The kind and the operand of the part at the walker.
    pub fn part(self, form: Form) -> Entry
        requires { Readable form self.file.now self.next }
        ensures { result ≡ entry_at form self.entry.file.now self.entry.next }
    {
        read_entry(self.file, form, self.next)
    }
}

// What s holds of part p, by way of a walker.
pub fn entry_at(s: &[u8], form: Form, p: Number) -> Entry
    requires { Readable form s.now p }
    ensures { result ≡ entry_at form s.now p }
{
    Walker::root(s).stepped(p).part(form)
}
