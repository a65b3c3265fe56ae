// Bytes as pairs of hexadecimal digits.
ghost use Rattle.std.specs.Prelude.{◌≡◌};
ghost use Rattle.std.proofs.lemmas.List.Edits.{sets};
ghost use Rattle.desk_parse.specs.Words.{digit_read, pair_read, pair_bytes, pairs_of};

use base::put;

// What a digit stands for, and nothing for a byte that is no digit.
#[tactic(auto, unfolding(crate::specs::Words::digit_of))]
fn digit(b: u8) -> Option<u8>
    ensures { result ≡ digit_read b }
{
    match b {
        b'0'..=b'9' => Some(b - b'0'),
        b'A'..=b'F' => Some(b - b'A' + 10),
        b'a'..=b'f' => Some(b - b'a' + 10),
        _ => None,
    }
}

// The byte that two digits stand for.
fn pair(x: u8, y: u8) -> Option<u8>
    ensures { result ≡ pair_read x y }
{
    let high = digit(x)?;
    let low = digit(y)?;
    Some(16 * high + low)
}

// Reads pairs up to the first fault, stores their bytes from the beginning of `bytes` on, and gives their number
// where there is no fault. A turn takes one byte or two, so no iterator over the bytes serves.
pub fn read_pairs(s: &[u8], bytes: &mut [u8]) -> Option<usize>
    ensures value { result ≡ pairs_of s.now }
    ensures bytes_after { bytes.new ≡ sets bytes.old 0 (pair_bytes s.now) }
{
    let mut rest = s;
    let mut n = 0;
    while let [x, after @ ..] = rest {
        if *x == b' ' {
            rest = after;
            continue;
        }
        let [y, after @ ..] = after else {
            return None;
        };
        put(bytes, n, pair(*x, *y)?);
        n += 1;
        rest = after;
    }
    Some(n)
}
