// The walk over a file, entered through the walker: where the root ends, at which the walker stands.
ghost use Rattle.std.specs.Prelude.{◌≡◌, ◌≤◌, length};
ghost use Rattle.meaning.specs.declared.Form.TheVariants.{File};
ghost use Rattle.meaning.specs.Sizes.{max_depth, length_of};
ghost use Rattle.meaning.specs.Program.{parts};
ghost use Rattle.program_walk.specs.Walk.{any_end, parts_end};
ghost use Rattle.program_walk.specs.Steps.{AtRoot};

use crate::walk::part_end;
use crate::walker::Walker;
use meaning::Number;

impl<'a> Walker<'a> {
    // Where the walker's root ends, 0 where the walk stops.
    pub(crate) fn extent(self) -> Number
        requires { AtRoot self.file.now self.next }
        ensures { result ≡ parts_end File self.entry.file.now any_end max_depth 1 self.entry.next }
    {
        part_end(self.file, self.next)
    }
}

// The same of the root of s, by way of a walker.
pub fn root_extent(s: &[u8]) -> Number
    requires { length_of File (parts s.now) ≤ length s.now }
    ensures { result ≡ parts_end File s.now any_end max_depth 1 0 }
{
    Walker::root(s).extent()
}
