// Whether bytes are a program file: the refusals 1 to 7.
#![tactic(auto)]

pub mod scan;

ghost use Rattle.std.specs.Prelude.{◌≡◌, ◌≤◌};
ghost use Rattle.base.specs.Lists.{first_failing};
ghost use Rattle.meaning.specs.declared.Form.TheVariants.{File};
ghost use Rattle.meaning.specs.Sizes.{max_depth};
ghost use Rattle.meaning.specs.Program.{parts, part_tests, program_refusal};
ghost use Rattle.meaning.specs.Answers.{answer_number};
ghost use Rattle.program_walk.specs.Walk.{any_end, parts_end};

use crate::scan::Parts;
use meaning::sizes::HEADER;
use meaning::{Answer, Form, Refusal};
use program_part::layout::{length_of, parts, sizes_allowed};
use program_walk::extent::root_extent;

// Whether s is a program file, or why not: refusals 1 to 7.
pub fn program_refusal(s: &[u8]) -> Answer<()>
    ensures { answer_number result ≡ program_refusal File s.now }
{
    if s.len() < HEADER {
        return Err(Refusal::FileTooShort);
    }
    if !sizes_allowed(s) {
        return Err(Refusal::SizeOutOfRange);
    }
    if s.len() != length_of(Form::File, parts(s)) {
        return Err(Refusal::WrongLength);
    }
    parts_refusal(Parts { file: s })
}

// Refusals 4 to 7. One walk tells whether a file passes all of them; which of them refuses is asked
// only where it does not.
fn parts_refusal(held: Parts<'_>) -> Answer<()>
    requires { 1 ≤ parts held.file.now }
    ensures { answer_number result ≡ first_failing (part_tests File held.entry.file.now) }
{
    if root_extent(held.file) == parts(held.file) {
        return Ok(());
    }
    failed_walk_refusal(held)
}

// Which of the refusals 4 to 7 a file gets whose walk does not end at its last part. Each is decided
// over all parts before the next; what passes the first three can only be too deep.
fn failed_walk_refusal(held: Parts<'_>) -> Answer<()>
    requires { parts_end File held.file.now any_end max_depth 1 0 ≡ parts held.file.now → ⊥ }
    ensures { answer_number result ≡ first_failing (part_tests File held.entry.file.now) }
{
    if !held.kinds_known() {
        return Err(Refusal::UnknownKind);
    }
    if !held.operands_allowed() {
        return Err(Refusal::OperandNotAllowed);
    }
    if !held.is_one_tree() {
        return Err(Refusal::NotOneTree);
    }
    Err(Refusal::TooDeep)
}
