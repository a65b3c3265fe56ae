// One line of a rehearsal: it is read, its call is made, and the answer is written.
#![tactic(auto)]

pub mod opening;
pub mod parsing;

ghost use Rattle.std.specs.Prelude.{◌≤◌};
ghost use Rattle.desk_format.specs.Writing.{Written};
ghost use Rattle.desk_format.specs.Pages.{Adds};
ghost use Rattle.desk_transcript.specs.Transcript.{summary_text, max_answer, max_summary};
ghost use Rattle.desk_rehearsal.specs.Rehearsal.{parts_under, Answered};

use crate::parsing::{estimate_length, is_call, parse_line};
use desk_dispatch::making::make_call;
use desk_format::page::Page;
use desk_transcript::parts::write_parts;
use desk_transcript::summary::write_summary;

// The longest line that can be a call.
pub const MAX_LINE: usize = 4095;

// What one line leads to: the length of the text that is written for it, the count of cycles after it, and whether
// it ends the run.
#[derive(Clone, Copy, PartialEq, Eq)]
pub struct Turn {
    pub length: usize,
    pub cycles: u64,
    pub ends: bool,
}

// Writes the marked parts where they are asked for.
fn add_parts(t: &[u8], r: &[u8], asked: bool, page: &mut Page<'_>)
    ensures { Adds (parts_under asked t.now r.now) page.old page.new }
{
    if asked {
        write_parts(t, r, page);
    }
}

// Answers a line: makes its call on the record, and writes the answer into `out`, with the marked parts under it where
// they are asked for. `cycles` is the count of cycles before the line, `number` the line's number.
pub fn answer_line(
    t: &[u8],
    r: &mut [u8],
    cycles: u64,
    number: u64,
    asked: bool,
    line: &[u8],
    out: &mut [u8],
) -> Turn
    ensures answered { Answered t.now r.old cycles number asked line.now r.new out.old out.new result }
    ensures length_le_max_answer { result.length ≤ max_answer }
{
    let mut bytes = [0u8; MAX_LINE];
    let x = parse_line(line, &mut bytes);
    let n = estimate_length(x);
    let mut page = Page::new(out);
    let made = make_call(t, r, cycles, number, x, &bytes[..n], &mut page);
    add_parts(t, r, asked & is_call(x), &mut page);
    Turn {
        length: page.length,
        cycles: made.cycles,
        ends: made.ends,
    }
}

// Writes the summary of a run, after its last line.
pub fn summarise(t: &[u8], r: &[u8], cycles: u64, out: &mut [u8]) -> usize
    ensures written { Written (summary_text t.now r.now cycles) out.old 0 out.new result }
    ensures upper_bound { result ≤ max_summary }
{
    let mut page = Page::new(out);
    write_summary(t, r, cycles, &mut page);
    page.length
}
