// Reads a line, and tells what it has.
ghost use Rattle.std.specs.Prelude.{◌≡◌, replicate};
ghost use Rattle.desk_rehearsal.specs.Rehearsal.{max_line, is_call, estimate_length, LineParsed};

use crate::MAX_LINE;
use desk_calls::{Line, read_line};

// Reads a line, and stores its estimate in `bytes`, which holds zeros before. A line that is too long is no call.
pub(crate) fn parse_line(line: &[u8], bytes: &mut [u8]) -> Line
    requires { bytes.old ≡ replicate max_line 0 }
    ensures { LineParsed line.now bytes.new result }
{
    if MAX_LINE < line.len() {
        return Line::NotACall;
    }
    read_line(line, bytes)
}

// The number of bytes of a line's estimate.
pub(crate) fn estimate_length(x: Line) -> usize
    ensures { result ≡ estimate_length x }
{
    match x {
        Line::Begin(n) | Line::Settle(n) => n,
        Line::Passed | Line::Offer(_) | Line::OfferInto(_, _) | Line::NotACall => 0,
    }
}

// Whether a line asks for a call.
pub(crate) fn is_call(x: Line) -> bool
    ensures { result ≡ is_call x }
{
    !matches!(x, Line::Passed | Line::NotACall)
}
