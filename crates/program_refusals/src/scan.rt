// The tests that go over all parts of a file in turn, to say which of the refusals 4 to 6 it gets.
ghost use Rattle.std.specs.Prelude.{◌≡◌, ◌≤◌, length};
ghost use Rattle.base.specs.Lists.{all};
ghost use Rattle.meaning.specs.declared.Form.TheVariants.{File};
ghost use Rattle.meaning.specs.Sizes.{length_of};
ghost use Rattle.meaning.specs.Program.{parts, variables, clocks, entries, entry_known, entry_allowed};
ghost use Rattle.program_refusals.specs.Counting.{fills};

use meaning::{Form, index};
use program_part::kinds::{arity, entry_allowed, entry_known};
use program_part::layout::{clocks, parts, variables};
use program_walk::walker::entry_at;

// The parts of a file that is as long as they need.
#[derive(Clone, Copy)]
pub(crate) struct Parts<'a> {
    pub file: &'a [u8],
    pub ghost long: { length_of File (parts file.now) ≤ length file.now },
}

impl<'a> Parts<'a> {
    pub(crate) fn kinds_known(self) -> bool
        ensures { result ≡ all entry_known (entries File self.entry.file.now) }
    {
        let s = self.file;
        (0..parts(s)).all(|p| entry_known(entry_at(s, Form::File, p)))
    }

    pub(crate) fn operands_allowed(self) -> bool
        ensures { result ≡ all (entry_allowed (variables self.entry.file.now) (clocks self.entry.file.now)) (entries File self.entry.file.now) }
    {
        let s = self.file;
        let v = variables(s);
        let k = clocks(s);
        (0..parts(s)).all(|p| entry_allowed(v, k, entry_at(s, Form::File, p)))
    }

    // Whether the entries are one part with all that is inside it: `remaining` is the number of parts that must
    // still come, to which each part adds its children.
    pub(crate) fn is_one_tree(self) -> bool
        ensures { result ≡ fills (entries File self.entry.file.now) 1 }
    {
        let s = self.file;
        let mut remaining: usize = 1;
        for p in 0..parts(s) {
            if remaining == 0 {
                return false;
            }
            remaining = remaining - 1 + index(arity(entry_at(s, Form::File, p)));
        }
        remaining == 0
    }
}
