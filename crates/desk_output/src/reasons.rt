// The reason of a read or a write that failed, in the system's words.
ghost use Rattle.std.specs.Prelude.{◌≤◌, length};

use std::io::{Error, Write};

// Room for the longest reason.
pub(crate) const MAX_REASON: usize = 320;

// What follows the system's words where std writes an error.
const NUMBER: &[u8] = b" (os error ";

// The reason, written into a buffer.
pub(crate) fn reason_of(why: Error, out: &mut [u8]) -> &[u8]
    ensures { length result.now ≤ length out.old }
{
    words(write_error(why, out))
}

// Writes an error as std does, as far as there is room.
fn write_error(why: Error, out: &mut [u8]) -> &[u8]
    ensures { length result.now ≤ length out.old }
{
    let room = out.len();
    let mut rest: &mut [u8] = &mut *out;
    let _ = write!(rest, "{why}");
    let n = room.saturating_sub(rest.len());
    &out[..n]
}

// The system's words of an error.
fn words(text: &[u8]) -> &[u8]
    ensures { length result.now ≤ length text.now }
{
    let n = text
        .windows(NUMBER.len())
        .position(|part| part == NUMBER)
        .unwrap_or(text.len());
    &text[..n]
}
