// What a program typed as text is, and which program it means. The definitions stand in specs/, their laws in proofs/;
// the types here are those that the definitions share with the code.
#![tactic(auto)]

pub mod tokens;
