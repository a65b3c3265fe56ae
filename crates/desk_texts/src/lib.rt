// Programs typed as text, at the desk: which input is one, in which line and column a place of it stands, and what a
// refusal of it says in words.
#![tactic(auto)]

pub mod forms;
pub mod places;
pub mod words;
