// The clocks at a settling: every marked START sets its clock to the last time, started or not.
#![tactic(auto)]

ghost use Rattle.std.specs.Prelude.{◌≡◌, ◌<◌, ◌≤◌, length};
ghost use Rattle.meaning.specs.Sizes.{max_clocks};
ghost use Rattle.meaning.specs.Program.{parts};
ghost use Rattle.meaning.specs.Record.{record_length};
ghost use Rattle.run_clocks.specs.Starting.{clock_started, part_started, clocks_settled};

use meaning::Number;
use meaning::kinds::Kind;
use meaning::sizes::{STARTED, STARTED_PLACE, STARTS_PLACE, TIME};
use program_table::table::Table;
use run_record::fields::Record;
use run_record::times::put_time;

// Starts clock c at a time, whatever it had. The record that is written stays a slice, here and below: a type round it
// would have to be lent anew at each call.
#[tactic(auto, using(crate::proofs::Starting::clock_stored))]
fn start_clock(r: &mut [u8], c: u8, time: u32)
    requires record_length_in_bounds { record_length ≤ length r.old }
    requires c_lt_max_clocks { c < max_clocks }
    ensures { r.new ≡ clock_started c time r.old }
{
    r[STARTED_PLACE + usize::from(c)] = STARTED;
    put_time(r, STARTS_PLACE + TIME * usize::from(c), time);
}

// Starts the clock of part p where it is a marked START.
fn start_part(t: Table<'_>, r: &mut [u8], p: Number, time: u32)
    requires record_length_in_bounds { record_length ≤ length r.old }
    requires p_bound { p < parts t.bytes.now }
    ensures { r.new ≡ part_started t.entry.bytes.now time p r.old }
{
    let marked = Record { bytes: r }.is_marked(p);
    if t.kind(p) == Kind::Start && marked {
        start_clock(r, t.entry(p).operand.b1, time);
    }
}

// Starts the clocks that marked STARTs name. A clock that none of them names keeps its bytes.
pub fn start_clocks(t: Table<'_>, r: &mut [u8])
    requires { record_length ≤ length r.old }
    ensures { r.new ≡ clocks_settled t.entry.bytes.now r.old }
{
    let time = Record { bytes: r }.last_time();
    for p in 0..t.parts() {
        start_part(t, r, p, time);
    }
}
