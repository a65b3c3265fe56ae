// The operation that begins a run: its refusals (9, 13, 8), and a record in which the root, and what begins with it, is
// marked.
#![tactic(auto)]

ghost use Rattle.std.specs.Prelude.{◌≡◌, length};
ghost use Rattle.meaning.specs.Cycle.{begin_refusal, begun_into};
ghost use Rattle.meaning.specs.Answers.{answer_number};
ghost use Rattle.meaning.specs.Operations.{Begun};

use base::{copy_over, fill};
use meaning::sizes::{ESTIMATE_PLACE, MARKS_PLACE, RECORD};
use meaning::{Answer, Refusal};
use program_table::table::Table;
use run_allowed::values::estimate_allowed;
use run_initialise::initialise;

// Begins a run: refusals 9, 13, 8.
pub fn begin(t: &[u8], est: &[u8], r: &mut [u8]) -> Answer<()>
    ensures { Begun t.now est.now r.old (answer_number result) r.new }
{
    let table = Table::new(t)?;
    if !estimate_allowed(t, est) {
        return Err(Refusal::EstimateNotAllowed);
    }
    if r.len() < RECORD {
        return Err(Refusal::BufferTooShort);
    }
    write_fresh_record(table, est, r);
    Ok(())
}

// Writes the record of a run that begins: what is neither estimate nor mark is 0 in it.
fn write_fresh_record(t: Table<'_>, est: &[u8], r: &mut [u8])
    requires { begin_refusal t.bytes.now est.now (length r.old) ≡ 0 }
    ensures { r.new ≡ begun_into t.entry.bytes.now est.now r.old }
{
    fill(r, 0, RECORD, 0);
    copy_over(est, &mut r[ESTIMATE_PLACE..ESTIMATE_PLACE + est.len()]);
    initialise(t, r, MARKS_PLACE, 0);
}
