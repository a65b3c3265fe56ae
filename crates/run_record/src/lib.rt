// Reading a run record: its fields, and the conditions that are judged by it; and the store of a time.
#![tactic(auto)]

pub mod conditions;
pub mod fields;
pub mod times;
