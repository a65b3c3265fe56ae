// Answers the calls on standard input, line by line.
ghost use Rattle.std.specs.Prelude.{◌≡◌, ◌≤◌, length};
ghost use Rattle.rehearse.specs.Standing.{starting, read_to, after_last, Goes, ReadsOn, Takes, Runs};

use desk_calls::pieces::{line_end, shift};
use desk_dispatch::counting::one_more;
use desk_input::read_piece;
use desk_output::print;
use desk_rehearsal::{MAX_LINE, answer_line, summarise};
use desk_transcript::{MAX_ANSWER, MAX_SUMMARY};
use meaning::sizes::RECORD;

// The state of a rehearsal. The input buffer holds `held` bytes, of which those from place `from` on are still to be
// answered; `number` is how many lines are answered, and `cycles` the count of cycles. The rehearsal goes on while
// `going` is true; after that `complete` says whether all of the input is answered.
#[derive(Clone, Copy)]
struct Stand {
    from: usize,
    held: usize,
    number: u64,
    cycles: u64,
    going: bool,
    complete: bool,
}

// Answers a line and prints the answer. The next line begins at place `from`.
fn answer(
    rt: &HostRuntime,
    t: &[u8],
    r: &mut [u8],
    asked: bool,
    line: &[u8],
    s: Stand,
    from: usize,
) -> Stand
    ensures { Goes t.now r.old asked line.now s from r.new result }
{
    let mut text = [0u8; MAX_ANSWER];
    let number = one_more(s.number);
    let turn = answer_line(t, r, s.cycles, number, asked, line, &mut text);
    let is_printed = print(rt, &rt.stderr(), &text[..turn.length]);
    Stand {
        from,
        held: s.held,
        number,
        cycles: turn.cycles,
        going: is_printed & !turn.ends,
        complete: false,
    }
}

// The state before anything is read.
fn start() -> Stand
    ensures { result ≡ starting }
{
    Stand {
        from: 0,
        held: 0,
        number: 0,
        cycles: 0,
        going: true,
        complete: false,
    }
}

// The state after the last line: complete, unless that line ended the run.
fn ended(s: Stand) -> Stand
    ensures { result ≡ after_last s }
{
    Stand {
        from: 0,
        held: 0,
        number: s.number,
        cycles: s.cycles,
        going: false,
        complete: s.going,
    }
}

// The state after a read: the buffer holds k bytes.
fn read_to(s: Stand, k: usize, going: bool) -> Stand
    ensures { result ≡ read_to s k going }
{
    Stand {
        from: 0,
        held: k,
        number: s.number,
        cycles: s.cycles,
        going,
        complete: false,
    }
}

// Reads more input after the first n bytes of the buffer. Where the input has ended, these bytes are its last line,
// and are answered.
fn read_on(
    rt: &HostRuntime,
    t: &[u8],
    r: &mut [u8],
    asked: bool,
    input: &mut [u8],
    s: Stand,
    n: usize,
) -> Stand
    requires { n ≤ length input.old }
    ensures { ReadsOn t.now r.old asked input.old s n r.new input.new result }
{
    let held = read_piece(&mut rt.stdin(), &rt.stderr(), b"standard input", input, n);
    let Some(k) = held else {
        return read_to(s, n, false);
    };
    if n < k {
        return read_to(s, k, true);
    }
    ended(answer(rt, t, r, asked, &input[..n], s, 0))
}

// Answers the next line, or reads more input where the line does not end in the buffer. Where the buffer is full, the
// line is too long, and is answered without its end.
fn turn(rt: &HostRuntime, t: &[u8], r: &mut [u8], asked: bool, input: &mut [u8], s: Stand) -> Stand
    requires { (s.from ≤ s.held) × (s.held ≤ length input.old) }
    ensures { Takes t.now r.old asked input.old s r.new input.new result }
{
    let from = s.from;
    let held = s.held;
    let end = line_end(input, from, held);
    if end < held {
        return answer(rt, t, r, asked, &input[from..end], s, end + 1);
    }
    if held - from == input.len() {
        return answer(rt, t, r, asked, &input[from..held], s, held);
    }
    shift(input, from, held);
    read_on(rt, t, r, asked, input, s, held - from)
}

// Takes turns until the run ends. A proved loop has to end, but the input need not; so the turns are counted, up to a
// number that is too large to be reached.
fn run(rt: &HostRuntime, t: &[u8], r: &mut [u8], asked: bool, input: &mut [u8]) -> Stand
    ensures { Runs t.now r.old asked input.old r.new input.new result }
{
    let mut s = start();
    for _ in 0..u64::MAX {
        if !s.going {
            return s;
        }
        s = turn(rt, t, r, asked, input, s);
    }
    s
}

// Answers every line of standard input, and then prints the summary.
pub(crate) fn rehearse(rt: &HostRuntime, t: &[u8], asked: bool) {
    let mut r = [0u8; RECORD];
    let mut input = [0u8; MAX_LINE + 1];
    let s = run(rt, t, &mut r, asked, &mut input);
    if s.complete {
        print_summary(rt, t, &r, s.cycles);
    }
}

// Prints the summary of a run.
fn print_summary(rt: &HostRuntime, t: &[u8], r: &[u8], cycles: u64) {
    let mut text = [0u8; MAX_SUMMARY];
    let n = summarise(t, r, cycles, &mut text);
    print(rt, &rt.stderr(), &text[..n]);
}
