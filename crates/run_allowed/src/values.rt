// The tests of an allowed record that go over its bytes, and over its clocks.
ghost use Rattle.std.specs.Prelude.{◌≡◌, ℕ, Bool, ◌-◌, ◌<◌, ◌≤◌};
ghost use Rattle.base.specs.Lists.{all, bytes_at};
ghost use Rattle.meaning.specs.Sizes.{max_clocks};
ghost use Rattle.meaning.specs.Program.{variables};
ghost use Rattle.meaning.specs.Record.{record_length, is_zero, rest_zero, estimate_byte_allowed, values_allowed, clocks_allowed};
ghost use Rattle.meaning.specs.Cycle.{estimate_allowed};
ghost use Rattle.run_allowed.specs.Places.{clock_at};

use meaning::sizes::{
    ESTIMATE_PLACE, FINISHED, MARKED, MARKS_PLACE, MAX_VALUE, RECORD, STARTED, STARTED_PLACE,
    STARTS_PLACE, TIME, UNKNOWN_VALUE,
};
use program_part::layout::{clocks, parts, variables};
use program_table::table::Table;
use run_record::fields::{Record, phase};

// Whether each byte passes a test. It looks at all of them even where one fails, so that the compiler
// can take many at once.
fn all_bytes<F: Fn(u8) -> bool>(s: &[u8], test: F) -> bool
    requires { F.IsAlwaysCallable test }
    ensures { (p : ℕ → Bool) → ((b : ℕ) (x : Bool) → F.post test b x → x ≡ p b) → result ≡ all p s.now }
{
    let mut all = true;
    for b in s {
        all = all & test(*b);
    }
    all
}

// Whether the bytes from place `from` on, before place `to`, are 0; there are none where `to` is not
// beyond `from`.
fn all_zero(r: Record<'_>, from: usize, to: usize) -> bool
    requires { to ≤ record_length }
    ensures { result ≡ all is_zero (bytes_at r.entry.bytes.now from (to - from)) }
{
    let from = from.min(to);
    all_bytes(&r.bytes[from..to], |b| b == 0)
}

// Whether a byte of an estimate is a value or says that the variable is unknown.
#[tactic(auto, unfolding(meaning::specs::Record::estimate_byte_allowed))]
fn estimate_byte_allowed(b: u8) -> bool
    ensures { result ≡ estimate_byte_allowed b }
{
    (u16::from(b) <= MAX_VALUE) | (b == UNKNOWN_VALUE)
}

// Whether the entries beyond the program's variables, clocks and parts are 0. Each field's room ends
// where the next field begins, so that a size beyond its limit leaves nothing to look at.
pub fn rest_zero(t: &[u8], r: Record<'_>) -> bool
    ensures { result ≡ rest_zero t.now r.entry.bytes.now }
{
    let v = usize::from(variables(t));
    let k = usize::from(clocks(t));
    let n = usize::from(parts(t));
    all_zero(r, ESTIMATE_PLACE + v, STARTED_PLACE)
        & (all_zero(r, STARTED_PLACE + k, STARTS_PLACE)
            & (all_zero(r, STARTS_PLACE + TIME * k, MARKS_PLACE)
                & all_zero(r, MARKS_PLACE + n, RECORD)))
}

// Whether phase, started flags, marks and estimates hold only values that they may have.
pub fn values_allowed(t: Table<'_>, r: Record<'_>) -> bool
    ensures { result ≡ values_allowed t.entry.bytes.now r.entry.bytes.now }
{
    let started = &r.bytes[STARTED_PLACE..STARTED_PLACE + usize::from(t.clocks())];
    let marks = &r.bytes[MARKS_PLACE..MARKS_PLACE + usize::from(t.parts())];
    let estimate = &r.bytes[ESTIMATE_PLACE..ESTIMATE_PLACE + usize::from(t.variables())];
    (phase(r.bytes) <= FINISHED)
        & (all_bytes(started, |b| b <= STARTED)
            & (all_bytes(marks, |b| b <= MARKED) & all_bytes(estimate, estimate_byte_allowed)))
}

// Whether the estimate has a byte for each of the program's variables, each a value or unknown (13).
#[tactic(auto, unfolding(meaning::specs::Cycle::estimate_allowed))]
pub fn estimate_allowed(t: &[u8], est: &[u8]) -> bool
    ensures { result ≡ estimate_allowed (variables t.now) est.now }
{
    if est.len() != usize::from(variables(t)) {
        return false;
    }
    all_bytes(est, estimate_byte_allowed)
}

// Whether clock c's start time is not after the last time where it is started, and 0 where not.
#[tactic(auto, unfolding(crate::specs::Places::clock_at, meaning::specs::Record::clock_allowed))]
fn clock_allowed(r: Record<'_>, c: u8) -> bool
    requires { c < max_clocks }
    ensures { result ≡ clock_at r.entry.bytes.now c }
{
    let start = r.start_of(c);
    if r.is_started(c) {
        start <= r.last_time()
    } else {
        start == 0
    }
}

pub fn clocks_allowed(t: Table<'_>, r: Record<'_>) -> bool
    ensures { result ≡ clocks_allowed t.entry.bytes.now r.entry.bytes.now }
{
    (0..t.clocks()).all(|c| clock_allowed(r, c))
}
