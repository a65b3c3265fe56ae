// The operation that assembles: it writes the program file of a text (16, 2, 5, 7, 8).
#![tactic(auto)]

pub mod packing;

ghost use Rattle.std.specs.Prelude.{◌≡◌, ◌*◌, ◌≤◌, length, take};
ghost use Rattle.meaning.specs.Sizes.{max_parts};
ghost use Rattle.meaning.specs.Program.{sizes_in_range};
ghost use Rattle.meaning.specs.Answers.{answer_number};
ghost use Rattle.text_grammar.specs.Assembling.{Assembled};
ghost use Rattle.text_stops.specs.Places.{stop_place};
ghost use Rattle.text_parts.specs.Stored.{part_length};
ghost use Rattle.text_assemble.specs.Packing.{packed_file, Written};

use crate::packing::pack;
use meaning::sizes::{MAX_CLOCKS, MAX_FILE, MAX_PARTS, MAX_VARIABLES};
use meaning::{Answer, Form, Refusal};
use program_part::layout::length_of;
use program_refusals::program_refusal;
use text_parts::PART;
use text_read::Program;
use text_read::texts::read_text;
use text_tokens::runs::skip_blanks;

// The length of the longest text.
pub const MAX_TEXT: usize = 16384;

// Room for the parts of the longest program, as reading stores them. A constant's value calls no function, so `as`.
const MAX_STORED: usize = PART * (MAX_PARTS as usize);

// Whether the numbers of parts, variables and clocks are in their ranges.
fn sizes_in_range(program: Program) -> bool
    ensures { result ≡ sizes_in_range program.parts program.variables program.clocks }
{
    (1..=u16::from(MAX_PARTS)).contains(&program.parts)
        && (1..=u16::from(MAX_VARIABLES)).contains(&program.variables)
        && program.clocks <= u16::from(MAX_CLOCKS)
}

// Assembles a text into its program file: refusal 16, then 2, 5, 7 and 8.
pub fn assemble(text: &[u8], file: &mut [u8]) -> Answer<()>
    ensures { Assembled text.now file.old (answer_number result) file.new }
{
    if MAX_TEXT < text.len() {
        return Err(Refusal::NotAText);
    }
    let mut parts = [0u8; MAX_STORED];
    let Ok(program) = read_text(text, &mut parts) else {
        return Err(Refusal::NotAText);
    };
    if !sizes_in_range(program) {
        return Err(Refusal::SizeOutOfRange);
    }
    write_program(
        &parts,
        program.parts as u8,
        program.variables as u8,
        program.clocks as u8,
        file,
    )
}

// Writes the program file of the first n parts of a buffer: its refusals, then 8.
fn write_program(parts: &[u8], n: u8, v: u8, k: u8, file: &mut [u8]) -> Answer<()>
    requires n_le_max_parts { n ≤ max_parts }
    requires n_in_bounds { part_length * n ≤ length parts.now }
    ensures { Written (packed_file parts.now n v k) file.old (answer_number result) file.new }
{
    let mut whole = [0u8; MAX_FILE];
    pack(parts, n, v, k, &mut whole);
    write_checked(&whole, length_of(Form::File, n), file)
}

// Writes a program that is the first `size` bytes of a buffer, if it is a program file: its refusals, then 8.
fn write_checked(whole: &[u8], size: usize, file: &mut [u8]) -> Answer<()>
    requires { size ≤ length whole.now }
    ensures { Written (take size whole.now) file.old (answer_number result) file.new }
{
    let program = &whole[..size];
    program_refusal(program)?;
    if file.len() < size {
        return Err(Refusal::BufferTooShort);
    }
    file[..size].copy_from_slice(program);
    Ok(())
}

// Where a text stops fitting the grammar: the place of the first token with which no text goes on, the text's end where
// that comes too early or the text fits, or the longest length where the text is longer.
pub fn stop_place(text: &[u8]) -> usize
    ensures { result ≡ stop_place text.now }
{
    if MAX_TEXT < text.len() {
        return MAX_TEXT;
    }
    let mut parts = [0u8; MAX_STORED];
    match read_text(text, &mut parts) {
        Ok(_) => text.len(),
        Err(stop) => skip_blanks(text, usize::from(stop.place)),
    }
}
