// The calls: each is made by its operation, its answer is written on a page, and the count of cycles after it is given.
ghost use Rattle.std.specs.Prelude.{◌≡◌, ◌≤◌, min, length, replicate};
ghost use Rattle.meaning.specs.Cycle.{begun_into, offered_into, settled_into};
ghost use Rattle.desk_format.specs.Pages.{Adds};
ghost use Rattle.desk_dispatch.specs.Counting.{begun_cycles, settled_cycles};
ghost use Rattle.desk_dispatch.specs.Making.{max_goals, begin_report, offer_report, settle_report, line_report, record_at, cycles_at, ends_run};

use crate::counting::{after_begin, after_settle};
use desk_answers::{write_begun, write_line_fault, write_offered, write_settled};
use desk_calls::Line;
use desk_format::page::Page;
use program_part::layout::variables;
use run_begin::begin;
use run_offer::offer;
use run_settle::settle;

// The longest goal buffer.
const MAX_GOALS: usize = 256;

// Begins a run.
fn begin_call(t: &[u8], est: &[u8], r: &mut [u8], cycles: u64, page: &mut Page<'_>) -> u64
    ensures count { result ≡ begun_cycles t.now est.now r.old cycles }
    ensures written { Adds (begin_report t.now est.now r.old) page.old page.new }
    ensures r_after { r.new ≡ begun_into t.now est.now r.old }
{
    let answer = begin(t, est, r);
    write_begun(answer, page);
    after_begin(answer, cycles)
}

// Makes an offer with a goal buffer.
fn offer_into(t: &[u8], r: &mut [u8], time: u32, goals: &mut [u8], page: &mut Page<'_>)
    ensures written { Adds (offer_report t.now r.old time goals.old) page.old page.new }
    ensures r_after { r.new ≡ offered_into t.now r.old time (length goals.old) }
{
    let answer = offer(t, r, time, goals);
    write_offered(answer, goals, variables(t), page);
}

// Makes an offer with a goal buffer of `room` bytes.
fn offer_call(t: &[u8], r: &mut [u8], time: u32, room: usize, page: &mut Page<'_>)
    requires { room ≤ max_goals }
    ensures written { Adds (offer_report t.now r.old time (replicate room 0)) page.old page.new }
    ensures r_after { r.new ≡ offered_into t.now r.old time room }
{
    let mut goals = [0u8; MAX_GOALS];
    offer_into(t, r, time, &mut goals[..room], page);
}

// Settles a cycle.
fn settle_call(t: &[u8], r: &mut [u8], est: &[u8], cycles: u64, page: &mut Page<'_>) -> u64
    ensures count { result ≡ settled_cycles t.now r.old est.now cycles }
    ensures written { Adds (settle_report t.now r.old est.now) page.old page.new }
    ensures r_after { r.new ≡ settled_into t.now r.old est.now }
{
    let answer = settle(t, r, est);
    write_settled(answer, page);
    after_settle(answer, cycles)
}

// The length of the goal buffer for a line that asks for n bytes: at most the longest.
fn room_of(n: u32) -> usize
    ensures { result ≡ min n max_goals }
{
    (n as usize).min(MAX_GOALS)
}

// Whether a line ends the run: one that is no call does.
pub fn ends_run(x: Line) -> bool
    ensures { result ≡ ends_run x }
{
    x == Line::NotACall
}

// Makes the call of a line, and gives the count of cycles after it. A line that is passed over has no call and no text,
// and one that is no call has the words that say so.
fn count_after(
    t: &[u8],
    r: &mut [u8],
    cycles: u64,
    number: u64,
    x: Line,
    est: &[u8],
    page: &mut Page<'_>,
) -> u64
    ensures count { result ≡ cycles_at t.now r.old x est.now cycles }
    ensures written { Adds (line_report t.now r.old number x est.now) page.old page.new }
    ensures r_after { r.new ≡ record_at t.now r.old x est.now }
{
    match x {
        Line::Passed => cycles,
        Line::Begin(_) => begin_call(t, est, r, cycles, page),
        Line::Offer(time) => {
            offer_call(t, r, time, variables(t).into(), page);
            cycles
        }
        Line::OfferInto(time, n) => {
            offer_call(t, r, time, room_of(n), page);
            cycles
        }
        Line::Settle(_) => settle_call(t, r, est, cycles, page),
        Line::NotACall => {
            write_line_fault(number, page);
            cycles
        }
    }
}

// What making the call of a line leads to: the count of cycles after it, and whether the line ends the run.
#[derive(Clone, Copy, PartialEq, Eq)]
pub struct Made {
    pub cycles: u64,
    pub ends: bool,
}

// Makes the call of a line, with the line's estimate.
pub fn make_call(
    t: &[u8],
    r: &mut [u8],
    cycles: u64,
    number: u64,
    x: Line,
    est: &[u8],
    page: &mut Page<'_>,
) -> Made
    ensures count { result.cycles ≡ cycles_at t.now r.old x est.now cycles }
    ensures ends { result.ends ≡ ends_run x }
    ensures written { Adds (line_report t.now r.old number x est.now) page.old page.new }
    ensures r_after { r.new ≡ record_at t.now r.old x est.now }
{
    Made {
        cycles: count_after(t, r, cycles, number, x, est, page),
        ends: ends_run(x),
    }
}
