// The marks that a settling leaves: what each marked part does, and the marks after it.
#![tactic(auto)]

pub mod settled;
pub mod transitions;
