// Rehearses a station: `rehearse PROGRAM` makes the calls on standard input, one a line, on the program in the file, and
// prints what each answers; `rehearse PROGRAM parts` prints the marked parts under each answer. The program is a program
// file or a text. What a line comes to stands in `desk_rehearsal`, what a text comes to in `desk_assembly`, and what the
// arguments ask for in `desk_arguments`; here are reads and writes.
#![tactic(auto)]

mod lines;

use crate::lines::rehearse;
use desk_arguments::arguments::{argument_count, is_cut, read_argument};
use desk_arguments::requests::rehearse_request;
use desk_arguments::{Command, MAX_PATH, Request};
use desk_assembly::assemble_text;
use desk_input::read_file;
use desk_output::{print, print_error, print_message};
use desk_rehearsal::opening::{open_program, write_refusal};
use desk_texts::forms::is_text;
use desk_texts::words::MAX_WORDS;
use desk_transcript::MAX_ANSWER;
use meaning::Refusal;
use meaning::sizes::{MAX_FILE, MAX_TABLE};
use text_assemble::MAX_TEXT;

// The places of the arguments that name the program file and ask for the marked parts.
const NAME: usize = 1;

const WORD: usize = 2;

// Room for the word that asks for the marked parts. A longer one is read as an empty one, which asks for nothing.
const MAX_WORD: usize = 5;

// Rehearses the program of a file, or prints why it is refused.
fn rehearse_program(rt: &HostRuntime, file: &[u8], with_parts: bool) {
    let mut table = [0u8; MAX_TABLE];
    let mut text = [0u8; MAX_ANSWER];
    match open_program(file, &mut table, &mut text) {
        Ok(n) => rehearse(rt, &table[..n], with_parts),
        Err(n) => {
            print(rt, &rt.stderr(), &text[..n]);
        }
    }
}

// Prints the number of a refusal.
fn print_refusal(rt: &HostRuntime, why: Refusal) {
    let mut text = [0u8; MAX_ANSWER];
    let n = write_refusal(why, &mut text);
    print(rt, &rt.stderr(), &text[..n]);
}

// Rehearses the program that a text means, or prints why the text is refused: the number as of a file, and the words on
// standard error.
fn rehearse_text(rt: &HostRuntime, text: &[u8], with_parts: bool) {
    let mut file = [0u8; MAX_FILE];
    let mut words = [0u8; MAX_WORDS];
    match assemble_text(text, &mut file, &mut words) {
        Ok(n) => rehearse_program(rt, &file[..n], with_parts),
        Err(refused) => {
            print_refusal(rt, refused.why);
            print_error(&rt.stderr(), &words[..refused.length]);
        }
    }
}

// Rehearses the program of an input, which is a program file or a text.
fn rehearse_input(rt: &HostRuntime, input: &[u8], with_parts: bool) {
    if is_text(input) {
        rehearse_text(rt, input, with_parts);
    } else {
        rehearse_program(rt, input, with_parts);
    }
}

// Reads the program. The buffer has room for one byte more than the longest text, so that a longer one is too long here
// too and is refused; a program file is shorter.
fn rehearse_file(rt: &HostRuntime, path: &[u8], with_parts: bool) {
    let mut input = [0u8; MAX_TEXT + 1];
    if let Some(n) = read_file(rt, &rt.stderr(), path, &mut input) {
        rehearse_input(rt, &input[..n], with_parts);
    }
}

fn main(rt: HostRuntime) {
    let mut path = [0u8; MAX_PATH];
    let mut word = [0u8; MAX_WORD];
    let argument = read_argument(&rt, NAME, &mut path);
    let name = argument.unwrap_or(&[]);
    let word = read_argument(&rt, WORD, &mut word).unwrap_or(&[]);
    let request = rehearse_request(argument_count(&rt), name, is_cut(argument), word);
    match request {
        Request::File => rehearse_file(&rt, name, false),
        Request::FileWithParts => rehearse_file(&rt, name, true),
        _ => print_message(&rt, &rt.stderr(), Command::Rehearse, request),
    }
}
