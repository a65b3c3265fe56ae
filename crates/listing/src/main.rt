// `listing PROGRAM` prints the listing of a program file, and `listing` that of the program file on standard input.
#![tactic(auto)]

use desk_arguments::Command;
use desk_input::source::read_source;
use desk_listing::{MAX_LISTING, list};
use desk_output::print;
use meaning::sizes::MAX_FILE;

// Prints the listing of a program file.
fn print_listing(rt: &HostRuntime, file: &[u8]) {
    let mut text = [0u8; MAX_LISTING];
    let n = list(file, &mut text);
    print(rt, &rt.stderr(), &text[..n]);
}

// The buffer has room for one byte more than the longest file, so that a longer one has a wrong length here too and is
// refused.
fn main(rt: HostRuntime) {
    let mut file = [0u8; MAX_FILE + 1];
    let held = read_source(
        &rt,
        &mut rt.stdin(),
        &rt.stderr(),
        Command::Listing,
        &mut file,
    );
    if let Some(n) = held {
        print_listing(&rt, &file[..n]);
    }
}
