// Makes the call that a line asks for, counts the cycles and writes the answer.
#![tactic(auto)]

pub mod counting;
pub mod making;
