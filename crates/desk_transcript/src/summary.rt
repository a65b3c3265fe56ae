// The summary after the last call.
ghost use Rattle.std.specs.Prelude.{◌<◌};
ghost use Rattle.meaning.specs.Program.{clocks};
ghost use Rattle.desk_format.specs.Pages.{Adds};
ghost use Rattle.desk_transcript.specs.Transcript.{start_text, clock_text, clocks_text, estimate_text, finishing_text, state_text, summary_text};

use crate::fields::{is_started, last_time, start_of};
use desk_format::page::Page;
use meaning::sizes::{ESTIMATE_PLACE, FINISHED};
use program_part::layout::{clocks, variables};
use run_record::fields::phase;

// Writes the stored estimate.
fn write_estimate(t: &[u8], r: &[u8], page: &mut Page<'_>)
    ensures { Adds (estimate_text t.now r.now) page.old page.new }
{
    page.word(b"estimate");
    page.pairs(r, ESTIMATE_PLACE, variables(t).into());
    page.byte(b'\n');
}

// Writes clock c's start, or that it has none, to the end of the line.
fn write_start(t: &[u8], r: &[u8], c: u8, page: &mut Page<'_>)
    requires { c < clocks t.now }
    ensures { Adds (start_text t.now r.now c) page.old page.new }
{
    if is_started(r, c) {
        page.numbered(b" ", start_of(r, c).into());
    } else {
        page.word(b" -\n");
    }
}

// Writes the line of clock c.
fn write_clock(t: &[u8], r: &[u8], c: u8, page: &mut Page<'_>)
    requires { c < clocks t.now }
    ensures { Adds (clock_text t.now r.now c) page.old page.new }
{
    page.word(b"clock ");
    page.number(c.into());
    write_start(t, r, c, page);
}

// Writes the line of every clock.
fn write_clocks(t: &[u8], r: &[u8], page: &mut Page<'_>)
    ensures { Adds (clocks_text t.now r.now) page.old page.new }
{
    for c in 0..clocks(t) {
        write_clock(t, r, c, page);
    }
}

// Writes in which cycle the run finished, or that it has not.
fn write_finishing(r: &[u8], cycles: u64, page: &mut Page<'_>)
    ensures { Adds (finishing_text r.now cycles) page.old page.new }
{
    if phase(r) == FINISHED {
        page.numbered(b"finishing cycle ", cycles);
    } else {
        page.word(b"finishing cycle -\n");
    }
}

// Writes the lines of the summary after those of phase and last time.
fn write_state(t: &[u8], r: &[u8], cycles: u64, page: &mut Page<'_>)
    ensures { Adds (state_text t.now r.now cycles) page.old page.new }
{
    write_estimate(t, r, page);
    write_clocks(t, r, page);
    write_finishing(r, cycles, page);
}

// Writes the summary.
pub fn write_summary(t: &[u8], r: &[u8], cycles: u64, page: &mut Page<'_>)
    ensures { Adds (summary_text t.now r.now cycles) page.old page.new }
{
    page.numbered(b"phase ", phase(r).into());
    page.numbered(b"last time ", last_time(r).into());
    write_state(t, r, cycles, page);
}
