// The contested variable that an offer names.
ghost use Rattle.std.specs.Prelude.{◌≡◌, true, Ok, ◌+◌, ◌≤◌, length};
ghost use Rattle.base.specs.Lists.{bytes_at};
ghost use Rattle.meaning.specs.Sizes.{max_variables};
ghost use Rattle.meaning.specs.Cycle.{lowest_contested};
ghost use Rattle.meaning.specs.Answers.{answered, offer_number, one_case};

use meaning::sizes::CONTESTED;

// Names the lowest of n variables whose goal byte is contested, or none.
pub fn lowest_contested(g: &[u8], n: u8) -> Option<u8>
    requires n_in_bounds { n ≤ length g.now }
    requires n_le_max_variables { n ≤ max_variables }
    ensures result_value_2 { one_case (Ok result) ≡ true }
    ensures result_value { offer_number (Ok result) ≡ answered + lowest_contested 0 (bytes_at g.now 0 n) }
{
    (0..n).find(|v| g[usize::from(*v)] == CONTESTED)
}
