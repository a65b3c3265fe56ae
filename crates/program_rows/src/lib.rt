// The rows of a location table: one row from what a part is and where it stands, and the rows of a
// whole file.
#![tactic(auto)]

pub mod rows;
pub mod writing;
