// Lines in a buffer into which the input is read piece by piece.
ghost use Rattle.std.specs.Prelude.{◌≡◌, ◌-◌};
ghost use Rattle.std.proofs.lemmas.List.Edits.{sets};
ghost use Rattle.base.specs.Lists.{bytes_at};
ghost use Rattle.desk_calls.specs.Places.{line_end};

use base::{at, put};
use desk_parse::place_of;

// The place of the first line feed from place `from` on and before place `to`, or `to` where there is
// none.
pub fn line_end(buf: &[u8], from: usize, to: usize) -> usize
    ensures { result ≡ line_end buf.now from to }
{
    place_of(buf, b'\n', from, to)
}

// Moves the bytes from place `from` on and before place `to` to the buffer's beginning. One by one, since
// `copy_within` asks that all these places are inside.
pub fn shift(buf: &mut [u8], from: usize, to: usize)
    ensures { buf.new ≡ sets buf.old 0 (bytes_at buf.old from (to - from)) }
{
    for i in from..to {
        put(buf, i - from, at(buf, i));
    }
}
