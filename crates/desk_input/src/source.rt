// The source that a command works on: the file that its argument names, or the input where it names none.
ghost use Rattle.std.specs.Prelude.{length};
ghost use Rattle.desk_input.specs.Reading.{FitsBuffer};

use crate::{read_file, read_whole};
use desk_arguments::arguments::{argument_count, is_cut, read_argument};
use desk_arguments::requests::source_request;
use desk_arguments::{Command, MAX_PATH, Request};
use desk_output::print_message;
use std::env::Env;
use std::io::Read;
use std::rt::Files;

// The place of the argument that names the file.
const NAME: usize = 1;

// Reads the source of a command into a buffer, and gives how many bytes it holds then: none where there is nothing to
// work on, and then it says why, or gives the help that was asked for.
pub fn read_source<R: Env + Files + Print, I: Read, E: Print>(
    rt: &R,
    input: &mut I,
    errors: &E,
    command: Command,
    buf: &mut [u8],
) -> Option<usize>
    ensures { FitsBuffer result (length buf.new) }
{
    let mut path = [0u8; MAX_PATH];
    let argument = read_argument(rt, NAME, &mut path);
    let cut = is_cut(argument);
    let name = argument.unwrap_or(&[]);
    let request = source_request(argument_count(rt), name, cut);
    match request {
        Request::Input => read_whole(input, errors, b"standard input", buf),
        Request::File => read_file(rt, errors, name, buf),
        _ => {
            print_message(rt, errors, command, request);
            None
        }
    }
}
