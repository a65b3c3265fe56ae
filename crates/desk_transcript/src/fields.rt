// The fields of a record of any length: a place beyond its end reads as 0.
ghost use Rattle.std.specs.Prelude.{◌≡◌, ◌+◌, ◌*◌, ◌<◌, get_or};
ghost use Rattle.meaning.specs.Sizes.{time_width};
ghost use Rattle.meaning.specs.Record.{started_place, starts_place, marks_place, time_at, last_time, is_mark};

use base::at;
use meaning::sizes::{MARKS_PLACE, STARTED_PLACE, STARTS_PLACE, TIME, TIME_PLACE, UNMARKED};
use meaning::{Number, index};
use run_record::fields::time_of;

// The time whose first byte stands at place i.
fn time_at(r: &[u8], i: usize) -> u32
    requires { i < 65536 }
    ensures { result ≡ time_at r.now i }
{
    time_of(at(r, i), at(r, i + 1), at(r, i + 2), at(r, i + 3))
}

pub(crate) fn last_time(r: &[u8]) -> u32
    ensures { result ≡ last_time r.now }
{
    time_at(r, TIME_PLACE)
}

// Whether clock c is started, and its start time.
pub(crate) fn is_started(r: &[u8], c: u8) -> bool
    ensures { result ≡ is_mark (get_or r.now (started_place + c) 0) }
{
    at(r, STARTED_PLACE + usize::from(c)) != 0
}

pub(crate) fn start_of(r: &[u8], c: u8) -> u32
    ensures { result ≡ time_at r.now (starts_place + time_width * c) }
{
    time_at(r, STARTS_PLACE + TIME * usize::from(c))
}

// Whether part p is marked.
pub(crate) fn is_marked(r: &[u8], p: Number) -> bool
    ensures { result ≡ is_mark (get_or r.now (marks_place + p) 0) }
{
    at(r, MARKS_PLACE + index(p)) != UNMARKED
}
