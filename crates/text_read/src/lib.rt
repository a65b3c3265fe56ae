// Reads a text: the parts that it means are stored in a lent buffer, one after the other.
#![tactic(auto)]

pub mod leaves;
pub mod steps;
pub mod texts;

use meaning::kinds::Test;
use text_grammar::tokens::Mark;

// How far reading came: the place after what was read, and the number of parts that are stored. A text's places have 16
// bits, so that a call takes little of the stack.
#[derive(Clone, Copy, PartialEq, Eq)]
pub struct Reached {
    pub place: u16,
    pub parts: u16,
}

// Where a text stops: the place from which on the first token is one with which no text goes on.
#[derive(Clone, Copy, PartialEq, Eq)]
pub struct Stop {
    pub place: u16,
}

// What reading comes to.
pub type Read = Result<Reached, Stop>;

// A sign between a variable or a clock and a value, and the test that it asks for.
#[derive(Clone, Copy, PartialEq, Eq)]
pub struct SignTest {
    pub sign: Mark,
    pub test: Test,
}

// The numbers of variables and of clocks that a text begins with, and the place after the colon.
#[derive(Clone, Copy, PartialEq, Eq)]
pub struct Header {
    pub variables: u16,
    pub clocks: u16,
    pub body: u16,
}

// The numbers of parts, variables and clocks of the program that a text means.
#[derive(Clone, Copy, PartialEq, Eq)]
pub struct Program {
    pub parts: u16,
    pub variables: u16,
    pub clocks: u16,
}
