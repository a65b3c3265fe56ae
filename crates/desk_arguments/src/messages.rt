// What a command prints where its arguments name no file to work on.
ghost use Rattle.std.specs.Prelude.{◌≡◌, ◌≤◌};
ghost use Rattle.desk_format.specs.Writing.{Written};
ghost use Rattle.desk_format.specs.Pages.{Adds};
ghost use Rattle.desk_arguments.specs.Messages.{is_asked, usage_text, purpose_text, help_text, message_text, max_message};

use crate::{Command, Request};
use desk_format::page::Page;

// Room for the longest message.
pub const MAX_MESSAGE: usize = 512;

// Whether a message was asked for, so that it goes to standard output. All others go to standard error.
pub fn is_asked(request: Request) -> bool
    ensures { result ≡ is_asked request }
{
    request == Request::Help
}

// A command's usage line.
#[tactic(auto, unfolding(crate::specs::Messages::usage_text))]
fn usage(command: Command) -> &'static [u8]
    ensures { result.now ≡ usage_text command }
{
    match command {
        Command::Assemble => b"usage: assemble [TEXT]\n",
        Command::Listing => b"usage: listing [PROGRAM]\n",
        Command::Rehearse => b"usage: rehearse PROGRAM [parts]\n",
    }
}

// What a command does.
#[tactic(auto, unfolding(crate::specs::Messages::purpose_text))]
fn purpose(command: Command) -> &'static [u8]
    ensures { result.now ≡ purpose_text command }
{
    match command {
        Command::Assemble =>
            b"Writes the program file of the program that is typed as text in the file TEXT to standard output.\nWithout TEXT it reads the text from standard input.\nA text that is refused gives no output; why it is refused is printed on standard error.\n",
        Command::Listing =>
            b"Prints the location table of the program in the file PROGRAM, or the number of its refusal.\nWithout PROGRAM it reads the file from standard input.\n",
        Command::Rehearse =>
            b"Makes the calls on standard input, one a line, on the program in the file PROGRAM, and prints each answer.\nPROGRAM is a program file, or a program that is typed as text.\nCalls: begin HEX, offer TIME, offer TIME LENGTH, settle HEX.\nWith the word parts it prints the marked parts under each answer.\n",
    }
}

// Writes the usage line, and under it what the command does.
fn write_help(command: Command, page: &mut Page<'_>)
    ensures { Adds (help_text command) page.old page.new }
{
    page.word(usage(command));
    page.word(purpose(command));
}

// Writes the message of a request on a page: none where a file is asked for.
fn add_message(command: Command, request: Request, page: &mut Page<'_>)
    ensures { Adds (message_text command request) page.old page.new }
{
    match request {
        Request::Help => write_help(command, page),
        Request::Usage => page.word(usage(command)),
        Request::LongName => page.word(b"the file name has more than 4095 bytes\n"),
        Request::Input | Request::File | Request::FileWithParts => {}
    }
}

// Writes the message of a request, and gives its length.
pub fn write_message(command: Command, request: Request, out: &mut [u8]) -> usize
    ensures written { Written (message_text command request) out.old 0 out.new result }
    ensures upper_bound { result ≤ max_message }
{
    let mut page = Page::new(out);
    add_message(command, request, &mut page);
    page.length
}
