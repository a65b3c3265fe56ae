// The arguments as the system gives them. No contract can say which they are.
ghost use Rattle.std.specs.Prelude.{◌≡◌, ◌≤◌, length, IfOk};
ghost use Rattle.std.specs.Io.{WritesAtMost};
ghost use Rattle.desk_arguments.specs.Arguments.{PartRead, is_cut};

use std::env::{Env, FillError};

// The bytes of an argument, or why there are none: it is missing or longer than its buffer.
pub type Argument<'a> = Result<&'a [u8], FillError>;

// What reading an argument of so many bytes into the buffer comes to.
fn part_read(read: Result<usize, FillError>, buf: &[u8]) -> Argument<'_>
    requires { WritesAtMost read buf.now }
    ensures { PartRead read buf.now result }
{
    let n = read?;
    Ok(&buf[..n])
}

// Reads argument i.
pub fn read_argument<'a, E: Env>(env: &E, i: usize, buf: &'a mut [u8]) -> Argument<'a>
    ensures within { IfOk result (λ part. length part.now ≤ length buf.old) }
{
    let read = env.arg(i, buf);
    part_read(read, buf)
}

// Whether an argument was longer than its buffer.
pub fn is_cut(argument: Argument<'_>) -> bool
    ensures { result ≡ is_cut argument.entry }
{
    matches!(argument, Err(FillError::TooLong))
}

// How many arguments there are, the command's own name among them. Only the last one is followed by none.
pub fn argument_count<E: Env>(env: &E) -> usize {
    (0..usize::MAX)
        .find(|i| matches!(env.arg(*i, &mut [0u8; 1]), Err(FillError::NotPresent)))
        .unwrap_or(usize::MAX)
}
