// The parts that a reader of a text stores in a lent buffer: a kind and an operand each. What lies beyond the buffer's end
// is dropped.
#![tactic(auto)]

ghost use Rattle.std.specs.Prelude.{◌≡◌, [], ◌∷◌, ◌*◌, ◌/◌, ◌%◌, ◌≤◌, length};
ghost use Rattle.std.proofs.lemmas.List.Edits.{sets};
ghost use Rattle.meaning.specs.Sizes.{byte_values};
ghost use Rattle.text_grammar.specs.Texts.{max_text_length};
ghost use Rattle.text_parts.specs.Stored.{part_length, clamped, moved_up, joining_kind, Joined};

use base::{copy, put};
use meaning::kinds::Kind;
use meaning::sizes::{KIND, OPERAND};

// How many bytes a part takes.
pub const PART: usize = KIND + OPERAND;

// What is joined: steps, by `;`, or sequences, by `,`.
#[derive(Clone, Copy, PartialEq, Eq)]
pub enum Level {
    Steps,
    Sequences,
}

// A number as a byte: the largest byte stands for every number that no byte holds.
pub fn clamped(x: u16) -> u8
    ensures { result ≡ clamped x }
{
    u8::try_from(x).unwrap_or(u8::MAX)
}

// Stores part n.
pub fn put_part(parts: &mut [u8], n: u16, kind: u8, b0: u8, b1: u8, value: u16)
    ensures { parts.new ≡ sets parts.old (part_length * n) (kind ∷ b0 ∷ b1 ∷ (value % byte_values) ∷ (value / byte_values) ∷ []) }
{
    let [low, high] = value.to_le_bytes();
    // By `copy`, since what lies beyond the buffer's end is dropped.
    let bytes = [kind, b0, b1, low, high];
    copy(&bytes, 0, parts, PART * usize::from(n), PART);
}

// The kind of the part that joins.
#[tactic(auto, unfolding(crate::specs::Stored::joining_kind))]
fn joining_kind(level: Level) -> Kind
    ensures { result ≡ joining_kind level }
{
    match level {
        Level::Steps => Kind::Seq,
        Level::Sequences => Kind::Par,
    }
}

// Moves the bytes from place `from` on and before place `to` up by the length of a part, the last first. One by one:
// `copy_within` needs `memmove`, and the header says that the library needs `memset` and `memcpy` alone.
fn move_up(parts: &mut [u8], from: usize, to: usize)
    requires from_le_to { from ≤ to }
    requires to_in_bounds { to ≤ length parts.old }
    ensures { parts.new ≡ moved_up parts.old from to }
{
    for i in (from..to).rev() {
        let b = parts[i];
        put(parts, i + PART, b);
    }
}

// Makes room for a part below those from part n on and before part m, as far as the buffer goes.
fn make_room(parts: &mut [u8], n: u16, m: u16)
    ensures { parts.new ≡ moved_up parts.old (part_length * n) (part_length * m) }
{
    let end = parts.len();
    let from = PART * (n as usize);
    let to = PART * (m as usize);
    if to <= from {
        return;
    }
    if end <= from {
        return;
    }
    if to < end {
        move_up(parts, from, to);
    } else {
        move_up(parts, from, end);
    }
}

// Joins `count` parts that stand from part n on and before part m, with what is inside them: more than one make a
// part. Gives the number of parts then.
pub fn join(parts: &mut [u8], n: u16, m: u16, level: Level, count: u16) -> u16
    requires { m ≤ max_text_length }
    ensures { Joined level n parts.old m count result parts.new }
{
    if count == 1 {
        return m;
    }
    make_room(parts, n, m);
    put_part(parts, n, joining_kind(level).into(), clamped(count), 0, 0);
    m + 1
}
