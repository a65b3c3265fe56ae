// Whether a run record is allowed (10), whether its run goes on (9, 10, 14), and whether an estimate is allowed (13).
#![tactic(auto)]

pub mod marks;
pub mod values;

ghost use Rattle.std.specs.Prelude.{◌≡◌, IfOk, IfErr};
ghost use Rattle.base.specs.Lists.{first_failing};
ghost use Rattle.meaning.specs.Record.{record_allowed};
ghost use Rattle.meaning.specs.Answers.{refusal_number};
ghost use Rattle.run_allowed.specs.Running.{run_tests};

use crate::marks::{parts_allowed, root_allowed};
use crate::values::{clocks_allowed, rest_zero, values_allowed};
use meaning::sizes::FINISHED;
use meaning::{Answer, Refusal};
use program_table::table::Table;
use run_record::fields::{Record, phase};

// Whether the record is one that a run of the table's program may have (10).
pub fn record_allowed(t: Table<'_>, r: &[u8]) -> bool
    ensures { result ≡ record_allowed t.entry.bytes.now r.now }
{
    let Some(record) = Record::new(r) else {
        return false;
    };
    let fields = rest_zero(t.bytes, record)
        & (values_allowed(t, record) & clocks_allowed(t, record));
    if !fields {
        return false;
    }
    root_allowed(t, record) & parts_allowed(t, record)
}

// The table and the record of a run that goes on, or why they are not: 9, 10, 14. In line, so that the answer takes
// no room on the stack.
#[inline(always)]
pub fn run_of<'t, 'r>(t: &'t [u8], r: &'r [u8]) -> Answer<(Table<'t>, Record<'r>)>
    ensures accepted { IfOk result (λ run. (run.0.bytes ≡ t.entry) × (run.1.bytes ≡ r.entry) × (first_failing (run_tests t.now r.now) ≡ 0)) }
    ensures refused { IfErr result (λ why. refusal_number why ≡ first_failing (run_tests t.now r.now)) }
{
    let table = Table::new(t)?;
    if !record_allowed(table, r) {
        return Err(Refusal::RecordNotAllowed);
    }
    if phase(r) == FINISHED {
        return Err(Refusal::RunFinished);
    }
    Ok((table, Record { bytes: r }))
}
