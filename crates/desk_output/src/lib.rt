// Prints texts and messages. No contract can say what the writes did.
#![tactic(auto)]

mod reasons;

ghost use Rattle.std.specs.Prelude.{◌≡◌};
ghost use Rattle.std.specs.Result.{result_ok};

use crate::reasons::{MAX_REASON, reason_of};
use desk_arguments::messages::{MAX_MESSAGE, is_asked, write_message};
use desk_arguments::{Command, Request};
use std::io;

// What came of a call of the system. Where it failed, it says why, and nothing came of it.
pub fn reported<T: Drop, E: Print>(errors: &E, what: &[u8], done: io::Result<T>) -> Option<T>
    ensures { result ≡ result_ok done }
{
    done.inspect_err(|why| print_failure(errors, what, *why))
        .ok()
}

// Writes a text to standard output, and answers whether it is written. Where it is not, it says why.
pub fn print<O: Print, E: Print>(output: &O, errors: &E, text: &[u8]) -> bool {
    reported(errors, b"standard output", output.write_all(text)).is_some()
}

// Writes a message to standard error. Where that fails, there is nowhere to say so.
pub fn print_error<E: Print>(errors: &E, message: &[u8]) {
    let _ = errors.write_all(message);
}

// Writes a line to standard error: what failed, as the caller names it, a colon and the reason.
pub fn print_failure<E: Print>(errors: &E, what: &[u8], why: io::Error) {
    let mut reason = [0u8; MAX_REASON];
    print_error(errors, what);
    print_error(errors, b": ");
    print_error(errors, reason_of(why, &mut reason));
    print_error(errors, b"\n");
}

// Prints the message of a request.
pub fn print_message<O: Print, E: Print>(
    output: &O,
    errors: &E,
    command: Command,
    request: Request,
) {
    let mut text = [0u8; MAX_MESSAGE];
    let n = write_message(command, request, &mut text);
    if is_asked(request) {
        print(output, errors, &text[..n]);
    } else {
        print_error(errors, &text[..n]);
    }
}
