// What stands where in a run record. The phase and the marks are asked of bytes of any length too.
ghost use Rattle.std.specs.Prelude.{◌≡◌, not, ◌+◌, ◌*◌, ◌<◌, ◌≤◌, eqb, length, get_or, IfSome, IfNone};
ghost use Rattle.meaning.specs.Sizes.{byte_values, max_clocks, time_width};
ghost use Rattle.meaning.specs.Record.{started_place, starts_place, marks_place, record_length, time_at, phase_of, last_time, is_mark};

use base::at;
use meaning::Number;
use meaning::sizes::{
    MARKS_PLACE, PHASE_PLACE, RECORD, STARTED_PLACE, STARTS_PLACE, TIME, TIME_PLACE, UNMARKED,
};

pub fn phase(r: &[u8]) -> u8
    ensures { result ≡ phase_of r.now }
{
    at(r, PHASE_PLACE)
}

// The time of four bytes, the low one first.
pub fn time_of(b0: u8, b1: u8, b2: u8, b3: u8) -> u32
    ensures { result ≡ b0 + byte_values * (b1 + byte_values * (b2 + byte_values * b3)) }
{
    u32::from_le_bytes([b0, b1, b2, b3])
}

// The time whose first byte stands at place i.
fn time_at(r: &[u8], i: usize) -> u32
    requires { i + time_width ≤ length r.now }
    ensures { result ≡ time_at r.now i }
{
    time_of(r[i], r[i + 1], r[i + 2], r[i + 3])
}

// Whether part p is marked.
pub fn is_marked(r: &[u8], p: Number) -> bool
    requires { marks_place + p < length r.now }
    ensures { result ≡ is_mark (get_or r.now (marks_place + p) 0) }
{
    r[MARKS_PLACE + usize::from(p)] != UNMARKED
}

// The bytes of a record, with room for every field: what stands in it is read without a test. What writes a
// record takes its bytes: each function that takes them in a type of their own would have to promise too
// that they are still the same ones.
#[derive(Clone, Copy)]
pub struct Record<'a> {
    pub bytes: &'a [u8],
    pub ghost long: { record_length ≤ length bytes.now },
}

impl<'a> Record<'a> {
    // The bytes as a record, where they are long enough.
    pub fn new(bytes: &'a [u8]) -> Option<Record<'a>>
        ensures found { IfSome result (λ r. r.bytes ≡ bytes.entry) }
        ensures short { IfNone result (length bytes.now < record_length) }
    {
        if bytes.len() < RECORD {
            return None;
        }
        Some(Record { bytes })
    }

    pub fn last_time(self) -> u32
        ensures { result ≡ last_time self.entry.bytes.now }
    {
        time_at(self.bytes, TIME_PLACE)
    }

    // Whether clock c is started, and its start time.
    pub fn is_started(self, c: u8) -> bool
        requires { c < max_clocks }
        ensures { result ≡ not (eqb (get_or self.entry.bytes.now (started_place + c) 0) 0) }
    {
        self.bytes[STARTED_PLACE + usize::from(c)] != 0
    }

    pub fn start_of(self, c: u8) -> u32
        requires { c < max_clocks }
        ensures { result ≡ time_at self.entry.bytes.now (starts_place + time_width * c) }
    {
        time_at(self.bytes, STARTS_PLACE + TIME * usize::from(c))
    }

    // Whether part p is marked.
    pub fn is_marked(self, p: Number) -> bool
        requires { marks_place + p < length self.bytes.now }
        ensures { result ≡ is_mark (get_or self.entry.bytes.now (marks_place + p) 0) }
    {
        is_marked(self.bytes, p)
    }
}
