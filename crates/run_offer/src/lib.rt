// The operation that makes an offer: its refusals (9, 10, 14, 11, 12, 8), the MAINTAINs checked, the goal bytes written,
// the lowest contested variable named.
#![tactic(auto)]

pub mod checks;

ghost use Rattle.std.specs.Prelude.{◌≡◌, true, Ok, IfOk, IfErr, ◌+◌, ◌≤◌, length};
ghost use Rattle.std.proofs.lemmas.List.Edits.{sets};
ghost use Rattle.meaning.specs.Record.{record_length};
ghost use Rattle.meaning.specs.Cycle.{offer_refusal, offered_record, offered_goals, offered_name};
ghost use Rattle.meaning.specs.Answers.{answered, refusal_number, offer_number, one_case};
ghost use Rattle.meaning.specs.Operations.{Offered};

use crate::checks::check_marks;
use meaning::sizes::{OFFERED, PHASE_PLACE, TIME_PLACE};
use meaning::{Answer, Refusal};
use program_table::table::Table;
use run_allowed::run_of;
use run_goals::goals::write_goals;
use run_goals::naming::lowest_contested;
use run_record::fields::{Record, phase};
use run_record::times::put_time;

// Makes an offer: refusals 9, 10, 14, 11, 12, 8.
pub fn offer(t: &[u8], r: &mut [u8], time: u32, goals: &mut [u8]) -> Answer<Option<u8>>
    ensures offered { Offered t.now r.old time goals.old (offer_number result) r.new goals.new }
    ensures result_value { one_case result ≡ true }
{
    let table = accepted(t, r, time, goals.len())?;
    Ok(make_offer(table, r, time, goals))
}

// The table, where an offer is accepted, or why it is refused. Nothing is written before this is known.
fn accepted<'t>(t: &'t [u8], r: &[u8], time: u32, room: usize) -> Answer<Table<'t>>
    ensures ok { IfOk result (λ table. (table.bytes ≡ t.entry) × (offer_refusal t.now r.now time room ≡ 0)) }
    ensures refused { IfErr result (λ why. refusal_number why ≡ offer_refusal t.now r.now time room) }
{
    let (table, record) = run_of(t, r)?;
    if phase(r) == OFFERED {
        return Err(Refusal::WrongPhase);
    }
    if time < record.last_time() {
        return Err(Refusal::TimeBeforeLast);
    }
    if room < usize::from(table.variables()) {
        return Err(Refusal::BufferTooShort);
    }
    Ok(table)
}

// Makes an offer that nothing refuses.
fn make_offer(t: Table<'_>, r: &mut [u8], time: u32, goals: &mut [u8]) -> Option<u8>
    requires { offer_refusal t.bytes.now r.old time (length goals.old) ≡ 0 }
    ensures result_value { offer_number (Ok result) ≡ answered + offered_name t.entry.bytes.now r.old time }
    ensures result_value_2 { one_case (Ok result) ≡ true }
    ensures r_after { r.new ≡ offered_record t.entry.bytes.now r.old time }
    ensures goals_after { goals.new ≡ sets goals.old 0 (offered_goals t.entry.bytes.now r.old time) }
{
    advance(t, r, time);
    write_goals(t, Record { bytes: r }, goals);
    lowest_contested(goals, t.variables())
}

// Brings the record to the cycle's time and checks its MAINTAINs.
fn advance(t: Table<'_>, r: &mut [u8], time: u32)
    requires { record_length ≤ length r.old }
    ensures { r.new ≡ offered_record t.entry.bytes.now r.old time }
{
    r[PHASE_PLACE] = OFFERED;
    put_time(r, TIME_PLACE, time);
    check_marks(t, r, time);
}
