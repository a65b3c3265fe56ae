// What a program file and its location table mean. The definitions stand in specs/, their laws in
// proofs/; the types here are those that the definitions share with the code.
#![tactic(auto)]

pub mod kinds;
pub mod sizes;

ghost use Rattle.std.specs.Prelude.{◌≡◌};
ghost use Rattle.meaning.specs.Answers.{refusal_number, answer_number, offer_number, settle_number};

use crate::sizes::{ANSWERED, NO_VARIABLE};

// A part's number, or a count of parts.
pub type Number = u8;

// A part's number as an index.
pub fn index(p: Number) -> usize
    ensures { result ≡ p }
{
    p as usize
}

// Where a program is held: in a program file or in a location table.
#[derive(Clone, Copy, PartialEq, Eq)]
pub enum Form {
    File,
    Table,
}

// An operand of 4 bytes: b0, b1, and b2 and b3 as one 16-bit value.
#[derive(Clone, Copy, PartialEq, Eq)]
pub struct Operand {
    pub b0: u8,
    pub b1: u8,
    pub b2: u8,
    pub b3: u8,
}

// What a program holds of one part: its kind byte and its operand.
#[derive(Clone, Copy, PartialEq, Eq)]
pub struct Entry {
    pub kind: u8,
    pub operand: Operand,
}

// What a condition comes to: satisfied, violated (document 01's term: its opposite is satisfied), or
// open (document 02's: neither).
#[derive(Clone, Copy, PartialEq, Eq)]
pub enum Outcome {
    Satisfied,
    Violated,
    Open,
}

// What becomes of a marked part at a settling: it stays marked, it ends, or it is a CHOICE that takes
// its first or its second child.
#[derive(Clone, Copy, PartialEq, Eq)]
pub enum Transition {
    Stays,
    Ends,
    First,
    Second,
}

// Why a call is refused: the names of the numbers in specs/Answers.antt and in the header.
#[derive(Clone, Copy, PartialEq, Eq)]
pub enum Refusal {
    FileTooShort = 1,
    SizeOutOfRange = 2,
    WrongLength = 3,
    UnknownKind = 4,
    OperandNotAllowed = 5,
    NotOneTree = 6,
    TooDeep = 7,
    BufferTooShort = 8,
    NotATable = 9,
    RecordNotAllowed = 10,
    WrongPhase = 11,
    TimeBeforeLast = 12,
    EstimateNotAllowed = 13,
    RunFinished = 14,
    NothingAtWork = 15,
    NotAText = 16,
}

// What a call answers: a value, or why it is refused. An offer gives the lowest contested variable, if any is.
pub type Answer<T> = Result<T, Refusal>;

// What a settling gives: whether the run goes on.
#[derive(Clone, Copy, PartialEq, Eq)]
pub enum Progress {
    Running,
    Finished,
}

impl From<Refusal> for u32 {
    ghost from_gives = { λ r n. n ≡ refusal_number r };

    fn from(r: Refusal) -> u32 {
        r as u32
    }
}

// The number of an answer that gives no value: 0, or the refusal's.
pub fn answer_number(answer: Answer<()>) -> u32
    ensures { result ≡ answer_number answer }
{
    match answer {
        Ok(()) => 0,
        Err(why) => why.into(),
    }
}

// The number of an offer's answer: the refusal's, or 256 and the lowest contested variable, 255 for none.
pub fn offer_number(answer: Answer<Option<u8>>) -> u32
    ensures { result ≡ offer_number answer }
{
    match answer {
        Ok(Some(v)) => ANSWERED + u32::from(v),
        Ok(None) => ANSWERED + u32::from(NO_VARIABLE),
        Err(why) => why.into(),
    }
}

// The number of a settling's answer: the refusal's, or 256 where the run goes on, or 257.
pub fn settle_number(answer: Answer<Progress>) -> u32
    ensures { result ≡ settle_number answer }
{
    match answer {
        Ok(Progress::Running) => ANSWERED,
        Ok(Progress::Finished) => ANSWERED + 1,
        Err(why) => why.into(),
    }
}
