// `assemble TEXT` writes the program file of the program that is typed as text in a file, and `assemble` that of the
// text on standard input.
#![tactic(auto)]

use desk_arguments::Command;
use desk_assembly::assemble_text;
use desk_input::source::read_source;
use desk_output::{print, print_error};
use desk_texts::words::MAX_WORDS;
use meaning::sizes::MAX_FILE;
use text_assemble::MAX_TEXT;

// Writes the program file of a text, or says why the text is refused.
fn print_file(rt: &HostRuntime, text: &[u8]) {
    let mut file = [0u8; MAX_FILE];
    let mut words = [0u8; MAX_WORDS];
    match assemble_text(text, &mut file, &mut words) {
        Ok(n) => {
            print(rt, &rt.stderr(), &file[..n]);
        }
        Err(refused) => print_error(&rt.stderr(), &words[..refused.length]),
    }
}

// The buffer has room for one byte more than the longest text, so that a longer one is too long here too and is
// refused.
fn main(rt: HostRuntime) {
    let mut text = [0u8; MAX_TEXT + 1];
    let held = read_source(
        &rt,
        &mut rt.stdin(),
        &rt.stderr(),
        Command::Assemble,
        &mut text,
    );
    if let Some(n) = held {
        print_file(&rt, &text[..n]);
    }
}
