// The operation that settles a cycle: its refusals (9, 10, 14, 11, 13, 15), and the record written.
#![tactic(auto)]

pub mod works;

ghost use Rattle.std.specs.Prelude.{◌≡◌, true, ◌||◌, cond, ◌≤◌, length, IfOk, IfErr};
ghost use Rattle.base.specs.Lists.{bytes_at};
ghost use Rattle.meaning.specs.Sizes.{max_parts};
ghost use Rattle.meaning.specs.Program.{parts, variables};
ghost use Rattle.meaning.specs.Record.{record_length, waiting, finished};
ghost use Rattle.meaning.specs.Cycle.{estimate_allowed, root_ended, works_from, settled_marks, settled_record};
ghost use Rattle.meaning.specs.Answers.{refusal_number, settle_number};
ghost use Rattle.meaning.specs.Operations.{Settled};
ghost use Rattle.run_settle.specs.Answering.{early_refusal, Judged};

use crate::works::Marks;
use base::{at, copy_over};
use meaning::sizes::{
    ESTIMATE_PLACE, FINISHED, MARKS_PLACE, MAX_MARKS, PHASE_PLACE, UNMARKED, WAITING,
};
use meaning::{Answer, Progress, Refusal};
use program_table::table::Table;
use run_allowed::run_of;
use run_allowed::values::estimate_allowed;
use run_clocks::start_clocks;
use run_marks::settled::Settling;
use run_record::fields::{Record, phase};

// The table and the record, where no refusal that needs no marks is given: 9, 10, 14, 11, 13.
fn accepted<'t, 'r>(t: &'t [u8], r: &'r [u8], est: &[u8]) -> Answer<(Table<'t>, Record<'r>)>
    ensures ok { IfOk result (λ run. (run.0.bytes ≡ t.entry) × (run.1.bytes ≡ r.entry) × (early_refusal t.now r.now est.now ≡ 0)) }
    ensures refused { IfErr result (λ why. refusal_number why ≡ early_refusal t.now r.now est.now) }
{
    let run = run_of(t, r)?;
    if phase(r) == WAITING {
        return Err(Refusal::WrongPhase);
    }
    if !estimate_allowed(t, est) {
        return Err(Refusal::EstimateNotAllowed);
    }
    Ok(run)
}

// Whether the root has ended: it has no next, so that it is then not marked any more.
fn root_ended(m: &[u8]) -> bool
    ensures { result ≡ root_ended m.now }
{
    at(m, 0) == UNMARKED
}

// Whether these marks may be left by a settling: the root has ended, or something is at work (15).
fn may_be_left(m: Marks<'_>) -> bool
    ensures { result ≡ (root_ended m.entry.bytes.now || works_from m.entry.table.bytes.now 0 (bytes_at m.entry.bytes.now 0 (parts m.entry.table.bytes.now))) }
{
    root_ended(m.bytes) || m.works()
}

// The table, where nothing refuses the settling, with the marks after the settling in m; 15 comes last.
fn judge<'t>(t: &'t [u8], r: &[u8], est: &[u8], m: &mut [u8]) -> Answer<Table<'t>>
    requires { length m.old ≡ max_parts }
    ensures ok { IfOk result (λ table. (table.bytes ≡ t.entry) × Judged t.now r.now est.now 0 m.new) }
    ensures refused { IfErr result (λ why. Judged t.now r.now est.now (refusal_number why) m.new) }
{
    let (table, record) = accepted(t, r, est)?;
    let settling = Settling {
        table,
        record,
        estimate: est,
    };
    settling.store_marks(m);
    if may_be_left(Marks { table, bytes: m }) {
        Ok(table)
    } else {
        Err(Refusal::NothingAtWork)
    }
}

// The phase that follows from the marks m: the run is over where the root has ended.
fn phase_after(m: &[u8]) -> u8
    ensures { result ≡ cond (root_ended m.now) finished waiting }
{
    if root_ended(m) { FINISHED } else { WAITING }
}

// Writes the record after a settling that left the marks m. The clocks are started by the marks that
// the record has before it takes the new ones.
fn commit(t: Table<'_>, r: &mut [u8], est: &[u8], m: &[u8])
    requires record_length_in_bounds { record_length ≤ length r.old }
    requires t_in_bounds { parts t.bytes.now ≤ length m.now }
    requires est_value { estimate_allowed (variables t.bytes.now) est.now ≡ true }
    requires m_value { bytes_at m.now 0 (parts t.bytes.now) ≡ settled_marks t.bytes.now r.old est.now }
    ensures { r.new ≡ settled_record t.entry.bytes.now r.old est.now }
{
    start_clocks(t, r);
    r[PHASE_PLACE] = phase_after(m);
    copy_over(est, &mut r[ESTIMATE_PLACE..ESTIMATE_PLACE + est.len()]);
    let parts = usize::from(t.parts());
    copy_over(&m[..parts], &mut r[MARKS_PLACE..MARKS_PLACE + parts]);
}

// Settles a cycle: refusals 9, 10, 14, 11, 13, 15. The marks after the settling stand in a list of their own, so
// that a refused call has written nothing to the record.
pub fn settle(t: &[u8], r: &mut [u8], est: &[u8]) -> Answer<Progress>
    ensures { Settled t.now r.old est.now (settle_number result) r.new }
{
    let mut m = [0u8; MAX_MARKS];
    let table = judge(t, r, est, &mut m)?;
    commit(table, r, est, &m);
    if root_ended(&m) {
        Ok(Progress::Finished)
    } else {
        Ok(Progress::Running)
    }
}
