// What an offer gives: the goal bytes, merged from the marked GOALs, and the contested variable that it
// names.
#![tactic(auto)]

pub mod goals;
pub mod naming;
