// The ten stations and further programs, by the table's definitions and by the unfolding: definitions
// and computed proofs, no code.
#![tactic(auto)]
