// What the arguments ask for, by their number and their bytes. Argument 0 is the command's own name, argument 1 names
// a file or asks for help, and argument 2 is a word.
ghost use Rattle.std.specs.Prelude.{◌≡◌};
ghost use Rattle.desk_arguments.specs.Requests.{name_request, source_request, rehearse_request};

use crate::Request;

// How many arguments there are with a file name, and with a word after it.
const WITH_NAME: usize = 2;

const WITH_WORD: usize = 3;

// The words that ask for help and for the marked parts.
const HELP: &[u8] = b"--help";

const PARTS: &[u8] = b"parts";

// The request of a file name, with the marked parts or without. Bytes and flag stand apart, since what the definitions
// say is said of a name with bytes that was cut too.
#[tactic(auto, unfolding(crate::specs::Requests::name_request))]
fn name_request(name: &[u8], cut: bool, parts: bool) -> Request
    ensures { result ≡ name_request name.now cut parts }
{
    match name {
        _ if cut => Request::LongName,
        [] => Request::Usage,
        _ if parts => Request::FileWithParts,
        _ => Request::File,
    }
}

// What the arguments of `assemble` and of `listing` ask for.
#[tactic(auto, unfolding(crate::specs::Requests::source_request), using(base::proofs::Lists::pointwise_same))]
pub fn source_request(count: usize, name: &[u8], cut: bool) -> Request
    ensures { result ≡ source_request count name.now cut }
{
    if count < WITH_NAME {
        return Request::Input;
    }
    if name == HELP {
        return Request::Help;
    }
    if count == WITH_NAME {
        return name_request(name, cut, false);
    }
    Request::Usage
}

// What the arguments of `rehearse` ask for.
#[tactic(auto, unfolding(crate::specs::Requests::rehearse_request), using(base::proofs::Lists::pointwise_same))]
pub fn rehearse_request(count: usize, name: &[u8], cut: bool, word: &[u8]) -> Request
    ensures { result ≡ rehearse_request count name.now cut word.now }
{
    if name == HELP {
        return Request::Help;
    }
    let parts = count == WITH_WORD && word == PARTS;
    if count == WITH_NAME || parts {
        return name_request(name, cut, parts);
    }
    Request::Usage
}
