// Going over a program that is held in a file or in a table: the walker; the walk over the tree of a
// file; and, above both, the walk entered through the walker.
#![tactic(auto)]

pub mod extent;
pub mod walk;
pub mod walker;
