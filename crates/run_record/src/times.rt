// A time in a run record, written.
ghost use Rattle.std.specs.Prelude.{◌≡◌, ◌+◌, ◌≤◌, length};
ghost use Rattle.std.proofs.lemmas.List.Edits.{sets};
ghost use Rattle.meaning.specs.Sizes.{time_width, little_endian};

use meaning::sizes::TIME;

// Stores a time, low byte first, at place i.
pub fn put_time(r: &mut [u8], i: usize, x: u32)
    requires { i + time_width ≤ length r.old }
    ensures { r.new ≡ sets r.old i (little_endian time_width x) }
{
    r[i..i + TIME].copy_from_slice(&x.to_le_bytes());
}
