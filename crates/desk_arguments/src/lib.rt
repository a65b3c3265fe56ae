// What the arguments of the commands at the desk ask for, and what a command prints where it is given no file to work
// on.
#![tactic(auto)]

pub mod arguments;
pub mod messages;
pub mod requests;

// The commands that take arguments.
#[derive(Clone, Copy, PartialEq, Eq)]
pub enum Command {
    Assemble,
    Listing,
    Rehearse,
}

// What the arguments ask for. `Usage` is for arguments that the command does not take, `LongName` for a file name
// that is longer than any path, and `Input` for no file name at all.
#[derive(Clone, Copy, PartialEq, Eq)]
pub enum Request {
    Help,
    Usage,
    LongName,
    Input,
    File,
    FileWithParts,
}

// The longest path that the system takes, without the byte 0 at its end.
pub const MAX_PATH: usize = 4095;
