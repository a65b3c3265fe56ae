// The count of cycles.
ghost use Rattle.std.specs.Prelude.{◌≡◌, cond, eqb, leb};
ghost use Rattle.meaning.specs.Answers.{answered, answer_number, settle_number};
ghost use Rattle.desk_dispatch.specs.Counting.{more};

use meaning::{Answer, Progress};

// n + 1, and n itself where n is the largest number.
pub fn one_more(n: u64) -> u64
    ensures { result ≡ more n }
{
    n.saturating_add(1)
}

// The count after a beginning with this answer: 0 where it is accepted.
pub(crate) fn after_begin(a: Answer<()>, cycles: u64) -> u64
    ensures { result ≡ cond (eqb (answer_number a) 0) 0 cycles }
{
    match a {
        Ok(()) => 0,
        Err(_) => cycles,
    }
}

// The count after a settling with this answer: one more where it is not refused.
pub(crate) fn after_settle(a: Answer<Progress>, cycles: u64) -> u64
    ensures { result ≡ cond (leb answered (settle_number a)) (more cycles) cycles }
{
    match a {
        Ok(_) => one_more(cycles),
        Err(_) => cycles,
    }
}
