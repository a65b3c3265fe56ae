// The lines that a rehearsal prints beside the answers: the marked parts under one, and the summary.
#![tactic(auto)]

mod fields;
pub mod parts;
pub mod summary;

// Room for the longest answer with the parts under it, and for the longest summary.
pub const MAX_ANSWER: usize = 8192;

pub const MAX_SUMMARY: usize = 16384;
