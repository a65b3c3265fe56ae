// Reads and writes of bytes, and plain functions on lists with their laws; no word of landers. A function that
// requires no bound works at every place: beyond the end it reads 0 and writes nothing.
#![tactic(auto)]

ghost use Rattle.std.specs.Prelude.{◌≡◌, ◌+◌, ◌<◌, ◌≤◌, ◌^◌, length, get_or, set, replicate};
ghost use Rattle.std.proofs.lemmas.List.Edits.{sets};
ghost use Rattle.base.specs.Lists.{bytes_at};

// The byte at place i, 0 beyond the end.
pub fn at(s: &[u8], i: usize) -> u8
    ensures { result ≡ get_or s.now i 0 }
{
    s.get(i).copied().unwrap_or(0)
}

// Stores b at place i, and nothing beyond the end. Of a write through `get_mut` the proofs know the length alone.
pub fn put(s: &mut [u8], i: usize, b: u8)
    ensures { s.new ≡ set s.old i b }
{
    if i < s.len() {
        s[i] = b;
    }
}

// Stores b at place i, which is inside.
pub fn store(s: &mut [u8], i: usize, b: u8)
    requires { i < length s.old }
    ensures { s.new ≡ set s.old i b }
{
    s[i] = b;
}

// Copies n bytes, from place `from` of src on, to place `to` of dst on. One by one, since any of these places may be
// beyond the end.
pub fn copy(src: &[u8], from: usize, dst: &mut [u8], to: usize, n: usize)
    requires n_bound { from + n < 2 ^ 64 }
    requires n_bound_2 { to + n < 2 ^ 64 }
    ensures { dst.new ≡ sets dst.old to (bytes_at src.now from n) }
{
    for j in 0..n {
        put(dst, to + j, at(src, from + j));
    }
}

// The same where all of these places are inside.
#[tactic(auto, using(crate::proofs::Stores::part_copied))]
pub fn copy_inside(src: &[u8], from: usize, dst: &mut [u8], to: usize, n: usize)
    requires n_in_bounds { from + n ≤ length src.now }
    requires n_in_bounds_2 { to + n ≤ length dst.old }
    ensures { dst.new ≡ sets dst.old to (bytes_at src.now from n) }
{
    dst[to..to + n].copy_from_slice(&src[from..from + n]);
}

// Copies src over dst, which is as long. By a loop: `copy_from_slice` calls memmove for a length that is not constant,
// and C's header promises that a board needs memset and memcpy alone.
pub fn copy_over(src: &[u8], dst: &mut [u8])
    requires { length src.now ≡ length dst.old }
    ensures { dst.new ≡ src.now }
{
    for j in 0..src.len() {
        dst[j] = src[j];
    }
}

// Stores b at n places, from place `from` of dst on, which are inside.
#[tactic(auto, using(crate::proofs::Stores::part_filled))]
pub fn fill(dst: &mut [u8], from: usize, n: usize, b: u8)
    requires { from + n ≤ length dst.old }
    ensures { dst.new ≡ sets dst.old from (replicate n b) }
{
    dst[from..from + n].fill(b);
}
