// Text that is written into a lent buffer, from its beginning on: bytes, words, numbers in decimal, bytes in
// hexadecimal.
ghost use Rattle.std.specs.Prelude.{◌≡◌, [], ◌∷◌, ◌+◌, ◌<◌, ◌^◌};
ghost use Rattle.base.specs.Lists.{bytes_at};
ghost use Rattle.desk_format.specs.Decimal.{glyph, decimal};
ghost use Rattle.desk_format.specs.Hexadecimal.{hex_glyph, spaced, pairs};
ghost use Rattle.desk_format.specs.Words.{numbered};
ghost use Rattle.desk_format.specs.Pages.{Adds};

use base::{at, put};

// A lent buffer and the length of the text in it. What lies beyond the buffer's end is dropped, but counted.
#[derive(Drop)]
pub struct Page<'a> {
    pub out: &'a mut [u8],
    pub length: usize,
}

impl<'a> Page<'a> {
    // A page without text.
    pub fn new(out: &'a mut [u8]) -> Page<'a>
        ensures bytes { result.out ≡ out.entry }
        ensures length { result.length ≡ 0 }
    {
        Page { out, length: 0 }
    }

    // Writes a byte.
    pub fn byte(&mut self, b: u8)
        ensures { Adds (b ∷ []) self.old self.new }
    {
        put(self.out, self.length, b);
        self.length = self.length.saturating_add(1);
    }

    // Writes a word.
    pub fn word(&mut self, word: &[u8])
        ensures { Adds word.now self.old self.new }
    {
        for b in word {
            self.byte(*b);
        }
    }

    // Writes a number. The digits before the last are those of n / 10, so they come first, and n falls at each call.
    pub fn number(&mut self, n: u64)
        ensures { Adds (decimal n) self.old self.new }
    {
        if n < 10 {
            self.byte(glyph(n));
            return;
        }
        self.number(n / 10);
        self.byte(glyph(n % 10));
    }

    // Writes the end of a line: a label, a number and the line feed.
    pub fn numbered(&mut self, label: &[u8], n: u64)
        ensures { Adds (numbered label.now n) self.old self.new }
    {
        self.word(label);
        self.number(n);
        self.byte(b'\n');
    }

    // Writes a space and the two digits of a byte.
    fn pair(&mut self, b: u8)
        ensures { Adds (spaced b) self.old self.new }
    {
        self.byte(b' ');
        self.byte(hex_glyph(b / 16));
        self.byte(hex_glyph(b % 16));
    }

    // Writes `count` bytes, from place `from` on, each after a space.
    pub fn pairs(&mut self, bytes: &[u8], from: usize, count: usize)
        requires { from + count < 2 ^ 64 }
        ensures { Adds (pairs (bytes_at bytes.now from count)) self.old self.new }
    {
        for k in from..from + count {
            self.pair(at(bytes, k));
        }
    }
}

// The byte of a digit.
fn glyph(d: u64) -> u8
    requires { d < 10 }
    ensures { result ≡ glyph d }
{
    b'0' + d as u8
}

// The byte of a hexadecimal digit.
fn hex_glyph(d: u8) -> u8
    requires { d < 16 }
    ensures { result ≡ hex_glyph d }
{
    if d < 10 { b'0' + d } else { b'A' + d - 10 }
}
