// The check of the marked MAINTAINs: one that is violated loses every mark inside it.
ghost use Rattle.std.specs.Prelude.{◌≡◌, true, ◌+◌, ◌<◌, ◌≤◌, length, get_or};
ghost use Rattle.std.proofs.lemmas.List.Edits.{sets};
ghost use Rattle.meaning.specs.Kinds.{condition_allowed};
ghost use Rattle.meaning.specs.Program.{parts, variables, clocks};
ghost use Rattle.meaning.specs.Conditions.{violated};
ghost use Rattle.meaning.specs.Record.{marks_place, record_length};
ghost use Rattle.meaning.specs.Cycle.{breaks, checked_marks};
ghost use Rattle.run_offer.specs.CheckSteps.{judging, checked_part, skip_after};

use meaning::kinds::Kind;
use meaning::sizes::{ESTIMATE_PLACE, MARKS_PLACE, UNMARKED};
use meaning::{Number, Operand};
use program_table::table::Table;
use run_record::conditions::Situation;
use run_record::fields::Record;

// Whether the record's own estimate and clocks violate a condition at this time.
fn violated(t: Table<'_>, r: Record<'_>, time: u32, o: Operand) -> bool
    requires { condition_allowed (variables t.bytes.now) (clocks t.bytes.now) o ≡ true }
    ensures { result ≡ violated (judging t.entry.bytes.now r.entry.bytes.now time) o }
{
    let stop = ESTIMATE_PLACE + usize::from(t.variables());
    let situation = Situation {
        table: t.bytes,
        record: r,
        estimate: &r.bytes[ESTIMATE_PLACE..stop],
        time,
    };
    situation.violated(o)
}

// Whether part p is a marked MAINTAIN whose condition is violated. Most parts have another kind, so that it is asked
// for first.
fn breaks(t: Table<'_>, r: Record<'_>, time: u32, p: Number) -> bool
    requires { p < parts t.bytes.now }
    ensures { result ≡ breaks t.entry.bytes.now (judging t.entry.bytes.now r.entry.bytes.now time) p (get_or r.entry.bytes.now (marks_place + p) 0) }
{
    t.kind(p) == Kind::Maintain && r.is_marked(p) && violated(t, r, time, t.entry(p).operand)
}

// Checks part p, with `skip` marks still to be dropped: how many are to be dropped after it.
#[tactic(auto, unfolding(crate::specs::CheckSteps::skip_after, crate::specs::CheckSteps::checked_part))]
fn check_part(t: Table<'_>, r: &mut [u8], time: u32, p: Number, skip: Number) -> Number
    requires record_length_in_bounds { record_length ≤ length r.old }
    requires p_bound { p < parts t.bytes.now }
    ensures value { result ≡ skip_after t.entry.bytes.now (judging t.entry.bytes.now r.old time) p (get_or r.old (marks_place + p) 0) skip }
    ensures r_after { r.new ≡ checked_part r.old p skip }
{
    if skip != 0 {
        r[MARKS_PLACE + usize::from(p)] = UNMARKED;
        return skip - 1;
    }
    if breaks(t, Record { bytes: r }, time, p) {
        return t.inside(p);
    }
    0
}

// Checks all parts, from the root down.
pub(crate) fn check_marks(t: Table<'_>, r: &mut [u8], time: u32)
    requires { record_length ≤ length r.old }
    ensures { r.new ≡ sets r.old marks_place (checked_marks t.entry.bytes.now r.old time) }
{
    let mut skip: Number = 0;
    for p in 0..t.parts() {
        skip = check_part(t, r, time, p, skip);
    }
}
