// Reading one part of a program that is held in a file or in a table: the sizes, the part's kind,
// operand and links, and what the table of kinds says of an entry.
#![tactic(auto)]

pub mod kinds;
pub mod layout;
