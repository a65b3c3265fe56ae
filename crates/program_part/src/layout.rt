// What stands where in a file and in a table.
ghost use Rattle.std.specs.Prelude.{◌≡◌, ◌+◌, ◌*◌, ◌<◌, ◌≤◌, length};
ghost use Rattle.meaning.specs.declared.Form.TheVariants.{Table};
ghost use Rattle.program_part.specs.Readable.{Readable, sizes_in};
ghost use Rattle.meaning.specs.Sizes.{number_width, header_length, operand_length, row_length, number_at, length_of, kind_place, operand_place};
ghost use Rattle.meaning.specs.Program.{parts, variables, clocks, sizes_allowed, operand_at, entry_at};
ghost use Rattle.meaning.specs.Table.{end_at, parent_at, next_at, inside_of};

use base::at;
use meaning::sizes::{
    CLOCKS_PLACE, END_PLACE, HEADER, KIND, MAX_CLOCKS, MAX_PARTS, MAX_VARIABLES, NEXT_PLACE,
    OPERAND, OPERAND_PLACE, PARENT_PLACE, ROW, VARIABLES_PLACE,
};
use meaning::{Entry, Form, Number, Operand, index};

// The number that stands at place i, which is inside.
pub fn read_number(s: &[u8], i: usize) -> Number
    requires { i + number_width ≤ length s.now }
    ensures { result ≡ number_at s.now i }
{
    s[i]
}

// The number that stands at place i, 0 beyond the end.
pub fn number_at(s: &[u8], i: usize) -> Number
    ensures { result ≡ number_at s.now i }
{
    at(s, i)
}

pub fn parts(s: &[u8]) -> Number
    ensures { result ≡ parts s.now }
{
    number_at(s, 0)
}

pub fn variables(s: &[u8]) -> u8
    ensures { result ≡ variables s.now }
{
    at(s, VARIABLES_PLACE)
}

pub fn clocks(s: &[u8]) -> u8
    ensures { result ≡ clocks s.now }
{
    at(s, CLOCKS_PLACE)
}

#[derive(Clone, Copy)]
pub struct Sizes {
    pub parts: Number,
    pub variables: u8,
    pub clocks: u8,
}

// The three sizes of bytes that have them.
pub fn read_sizes(s: &[u8]) -> Sizes
    requires { header_length ≤ length s.now }
    ensures { result ≡ sizes_in s.now }
{
    Sizes {
        parts: read_number(s, 0),
        variables: s[VARIABLES_PLACE],
        clocks: s[CLOCKS_PLACE],
    }
}

// Whether the three sizes lie within their limits.
#[tactic(auto, unfolding(meaning::specs::Program::sizes_allowed))]
pub fn sizes_allowed(s: &[u8]) -> bool
    ensures { result ≡ sizes_allowed s.now }
{
    let n = parts(s);
    let v = variables(s);
    let k = clocks(s);
    (1 <= n) & ((n <= MAX_PARTS) & ((1 <= v) & ((v <= MAX_VARIABLES) & (k <= MAX_CLOCKS))))
}

// How long a file or a table of n parts is.
pub fn length_of(form: Form, n: Number) -> usize
    ensures { result ≡ length_of form n }
{
    match form {
        Form::File => HEADER + (KIND + OPERAND) * index(n),
        Form::Table => HEADER + ROW * index(n),
    }
}

// Where the row of part p begins.
pub fn row_place(p: Number) -> usize
    ensures { result ≡ header_length + row_length * p }
{
    HEADER + ROW * index(p)
}

// Where part p's kind byte stands.
pub fn kind_place(form: Form, n: Number, p: Number) -> usize
    ensures { result ≡ kind_place form n p }
{
    match form {
        Form::File => HEADER + index(p),
        Form::Table => row_place(p),
    }
}

// Where the first byte of part p's operand stands.
pub fn operand_place(form: Form, n: Number, p: Number) -> usize
    ensures { result ≡ operand_place form n p }
{
    match form {
        Form::File => HEADER + index(n) + OPERAND * index(p),
        Form::Table => row_place(p) + OPERAND_PLACE,
    }
}

// The operand whose first byte stands at place i.
fn operand_at(s: &[u8], i: usize) -> Operand
    requires { i + operand_length ≤ length s.now }
    ensures { result ≡ operand_at s.now i }
{
    let b0 = s[i];
    let b1 = s[i + 1];
    let b2 = s[i + 2];
    let b3 = s[i + 3];
    Operand { b0, b1, b2, b3 }
}

// What s holds of part p. The walker reads with it, and nothing else does.
pub fn read_entry(s: &[u8], form: Form, p: Number) -> Entry
    requires { Readable form s.now p }
    ensures { result ≡ entry_at form s.now p }
{
    let n = read_number(s, 0);
    let k = kind_place(form, n, p);
    let kind = s[k];
    let operand = operand_at(s, operand_place(form, n, p));
    Entry { kind, operand }
}

// The number that stands at place i of part p's row. It and what follows take bytes, and no checked
// table: the check of a table reads rows by them while the bytes may still be none.
fn link_at(t: &[u8], p: Number, i: usize) -> Number
    requires readable { Readable Table t.now p }
    requires number_width_bound { i + number_width ≤ row_length }
    ensures { result ≡ number_at t.now (header_length + row_length * p + i) }
{
    read_number(t, row_place(p) + i)
}

// One past the last part inside part p of a table, the part around p, and the part that begins when
// p ends.
pub fn end_at(t: &[u8], p: Number) -> Number
    requires { Readable Table t.now p }
    ensures { result ≡ end_at t.now p }
{
    link_at(t, p, END_PLACE)
}

pub fn parent_at(t: &[u8], p: Number) -> Number
    requires { Readable Table t.now p }
    ensures { result ≡ parent_at t.now p }
{
    link_at(t, p, PARENT_PLACE)
}

pub fn next_at(t: &[u8], p: Number) -> Number
    requires { Readable Table t.now p }
    ensures { result ≡ next_at t.now p }
{
    link_at(t, p, NEXT_PLACE)
}

// How many parts stand inside part p.
pub fn inside_of(t: &[u8], p: Number) -> Number
    requires { Readable Table t.now p }
    ensures { result ≡ inside_of t.now p }
{
    let e = end_at(t, p);
    if p < e { e - p - 1 } else { 0 }
}
